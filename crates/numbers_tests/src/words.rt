use cal_words::Found::{Nothing, One, Several};
use cal_words::{Found, Rule, command_words, find, fits, rule_text};

#[test]
fn a_command_word_is_found_by_the_fronts_of_its_parts(rt: HostRuntime) {
    let words = command_words();
    for (place, word) in words.iter().enumerate() {
        assert_eq!(rt; find(&words, word.as_bytes(), 3), One(place), "{word}");
    }
    let rows: [(&[u8], Found); 72] = [
        (b"ELE", One(0)),
        (b"SPE", One(1)),
        (b"FUN", One(2)),
        (b"PHA", One(3)),
        (b"CON", One(4)),
        (b"PAR", One(5)),
        (b"TYP", One(6)),
        (b"T_D", One(6)),
        (b"DEFI", One(7)),
        (b"D_S", One(7)),
        (b"DEF_S", One(7)),
        (b"DEF_SYS_DEF", One(7)),
        (b"DEFA", One(8)),
        (b"D_C", One(8)),
        (b"DEFAULT", One(8)),
        (b"TEM", One(9)),
        (b"T_L", One(9)),
        (b"TEMP_LIM", One(9)),
        (b"DAT", One(10)),
        (b"D_I", One(10)),
        (b"ASS", One(11)),
        (b"A_S", One(11)),
        (b"VER", One(12)),
        (b"REF", One(13)),
        (b"LIS", One(14)),
        (b"L_O", One(14)),
        (b"L_O_R", One(14)),
        (b"ADD_R", One(15)),
        (b"A_R", One(15)),
        (b"DIF", One(16)),
        (b"ZERO_V", One(17)),
        (b"Z_V_S", One(17)),
        (b"ZEROV", One(18)),
        (b"ZERO_S", One(18)),
        (b"FTP", One(19)),
        (b"F_F", One(19)),
        (b"ADD_C", One(20)),
        (b"COM", One(21)),
        (b"C_P", One(21)),
        (b"ALL", One(22)),
        (b"A_P", One(22)),
        (b"CAS", One(23)),
        (b"TAB", One(24)),
        (b"DEF", Several),
        (b"ADD", Several),
        (b"ZER", Several),
        (b"ZERO", Several),
        (b"", Nothing),
        (b"E", Nothing),
        (b"EL", Nothing),
        (b"PA", Nothing),
        (b"T_", Nothing),
        (b"TA", Nothing),
        (b"XYZ", Nothing),
        (b"ELEMENTS", Nothing),
        (b"LEMENT", Nothing),
        (b"PHASE_X", Nothing),
        (b"TEMP_X", Nothing),
        (b"TEMP_LIMITS_X", Nothing),
        (b"DEF_DEF", Nothing),
        (b"DEF_SYS_DEF_A", Nothing),
        (b"TYPE__DEF", Nothing),
        (b"_DEF", Nothing),
        (b"ELE_", Nothing),
        (b"ADD_", Nothing),
        (b"TEMP_LIM_", Nothing),
        (b"___", Nothing),
        (b"ele", Nothing),
        (b"Element", Nothing),
        (b"ELE\xc3", Nothing),
        (b"\xff\xff\xff", Nothing),
        (b"TEMP-LIM", Nothing),
    ];
    for (word, found) in rows {
        assert_eq!(rt; find(&words, word, 3), found, "{word:?}");
    }
}

#[test]
fn a_word_that_is_an_entry_may_fit_another(rt: HostRuntime) {
    let words = ["PHASE", "PHASES", "PHASE_DATA", "LIQUID"];
    assert_eq!(rt; find(&words, b"PHASE", 1), Several);
    assert_eq!(rt; find(&words, b"PHASES", 1), One(1));
    assert_eq!(rt; find(&words, b"L", 1), One(3));
    assert_eq!(rt; find(&words, b"L", 2), Nothing);
    assert_eq!(rt; find(&words, b"PHASE", 6), Nothing);
    assert!(rt; fits(b"AMEND_PHASE", b"AMEND_PHASE_DESCRIPTION"));
    assert!(rt; !fits(b"AMEND_PHASE_DESCRIPTION", b"AMEND_PHASE"));
    assert_eq!(rt; rule_text(Rule::LeftOut), "left-out");
    assert_eq!(rt; rule_text(Rule::TypeDef), "type");
}
