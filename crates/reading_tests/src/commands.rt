use std::test::Fail;
use tdb_lex::commands;

/// A text, the lines and texts of its commands, and the line of unfinished text.
type Case = (&'static [u8], &'static [(u32, &'static [u8])], Option<u32>);

#[test]
fn a_text_is_cut_into_commands_with_their_lines(rt: HostRuntime) -> Result<(), Fail> {
    let cases: [Case; 9] = [
        (b"", &[], None),
        (b" \t\r\n $ remark !\n", &[], None),
        (
            b"ELEMENT A !\nPHASE B!",
            &[(1, b"ELEMENT A "), (2, b" PHASE B")],
            None,
        ),
        (b"\n\n  element\tFe_2 !", &[(3, b"    ELEMENT FE_2 ")], None),
        (b"A\n$ remark ! with marks !\nB !", &[(1, b"A  B ")], None),
        (b"!!A! !\x7f\n!B!", &[(1, b"A"), (2, b"B")], None),
        (b"A!\n \n B\nC", &[(1, b"A")], Some(3)),
        (b"A $ B!\n\t$C!\nD!", &[(1, b"A $ B"), (3, b"  D")], None),
        (b"\x80\xe9!\n\xff", &[(1, b"\x80\xe9")], Some(2)),
    ];
    for (text, wanted, unfinished) in cases {
        assert!(rt; text.len() < 100);
        let found = commands(rt.alloc(), text)?;
        assert_eq!(rt; found.list.len(), wanted.len());
        for (command, (line, text)) in found.list.as_slice().iter().zip(wanted) {
            assert_eq!(rt; command.line, *line);
            assert_eq!(rt; command.text.as_slice(), *text);
        }
        assert_eq!(rt; found.unfinished, unfinished);
    }
    Ok(())
}
