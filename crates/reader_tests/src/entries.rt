//! What the commands of a text give.

use cef_kind::Kind;
use std::test::Fail;
use tdb_read::{Db, read};

/// Iron, chromium and carbon, with numbers that claim nothing about real alloys.
const STEEL: &[u8] = b"$ Fe-Cr-C
ELEMENT /- ELECTRON_GAS 0 0 0 !
ELEMENT VA VACUUM 0 0 0 !
ELEMENT C GRAPHITE 12.011 1054 5.74 !
ELEMENT CR BCC_A2 51.996 4050 23.5429 !
ELEMENT FE BCC_A2 55.847 4489 27.2797 !
FUNCTION GC 298.15 -17368.441+170.73*T-24.3*T*LN(T)-4.723E-04*T**2
 +2562600*T**(-1)-2.643E+08*T**(-2)+1.2E+10*T**(-3); 6000 N !
FUNCTION GCR 298.15 -8856.94+157.48*T-26.908*T*LN(T)+.00189435*T**2
 -1.47721E-06*T**3+139250*T**(-1); 2180 Y
 -34869.344+344.18*T-50*T*LN(T)-2.88526E+32*T**(-9); 6000 N !
TYPE_DEFINITION % SEQ * !
TYPE_DEFINITION & GES A_P_D BCC_A2 MAGNETIC -1.0 0.4 !
TYPE_DEFINITION ( GES A_P_D FCC_A1 MAGNETIC -3.0 2.8E-01 !
DEFINE_SYSTEM_DEFAULT ELEMENT 2 !
DEFAULT_COMMAND DEF_SYS_ELEMENT VA /- !
PHASE LIQUID:L % 1 1.0 !
CONSTITUENT LIQUID:L :C,CR,FE : !
PARAMETER G(LIQUID,C;0) 298.15 +117369-24.63*T+GC#; 6000 N REF1 !
PARAMETER L(LIQUID,C,CR;0) 298.15 -90526-25.9116*T; 6000 N !
PHASE BCC_A2 %& 2 1 3 !
CONSTITUENT BCC_A2 :CR%,FE% : C,VA% : !
PARAMETER TC(BCC_A2,CR,FE:VA;1) 298.15 550; 6000 N !
PARAMETER BMAGN(BCC_A2,FE:VA;0) 298.15 2.22; 6000 N !
PARAMETER BMAG(BCC_A2,CR,FE:VA;0) 298.15 -.85; 6000 N !
PHASE M23C6 % 3 20 3 6 !
CONSTITUENT M23C6 :CR,FE : CR,FE : C : !
PARAMETER MQ&FE(M23C6,*:FE:C;2) 298.15 +EXP(T); 6000 N !
";

/// The kind of the parameter at a place, with its kind's name, its order and the number of its lists.
fn parameter(db: &Db, place: usize) -> Option<(Kind, &[u8], u8, usize)> {
    if place >= db.parameter_count() {
        return None;
    }
    let (key, text) = db.parameter_at(place);
    Some((text.kind, key.kind_name.bytes(), key.order, key.array.len()))
}

#[test]
fn kinds_of_parameters_have_one_name_each(rt: HostRuntime) -> Result<(), Fail> {
    let text = STEEL;
    assert!(rt; text.len() < 10000);
    let db = read(rt.alloc(), text)?;
    assert_eq!(rt; parameter(&db, 0), Some((Kind::G, b"G".as_slice(), 0, 1)));
    assert_eq!(rt; parameter(&db, 1), Some((Kind::G, b"G".as_slice(), 0, 1)));
    assert_eq!(rt; parameter(&db, 2), Some((Kind::Tc, b"TC".as_slice(), 1, 2)));
    assert_eq!(rt;
        parameter(&db, 3),
        Some((Kind::Beta, b"BMAGN".as_slice(), 0, 2))
    );
    assert_eq!(rt;
        parameter(&db, 4),
        Some((Kind::Beta, b"BMAGN".as_slice(), 0, 2))
    );
    assert_eq!(rt;
        parameter(&db, 5),
        Some((Kind::Unread, b"MQ&FE".as_slice(), 2, 3))
    );
    Ok(())
}

const REPEATED: &[u8] = b"PHASE P %& 1 2!
PHASE Q % 1 1!
CONSTITUENT P :A:!
PARAMETER G(P,A;0) 1 1; 6000 N!
PARAMETER L(P,A) 1 2+3*T; 6000 N!
PARAMETER G(P,A,B) 1 1; 6000 N!
PARAMETER G(P,B,A) 1 1; 6000 N!
PHASE P & 1 3!
";

#[test]
fn a_repeated_entry_keeps_its_place_and_a_phase_loses_its_constituents(
    rt: HostRuntime,
) -> Result<(), Fail> {
    let text = REPEATED;
    assert!(rt; text.len() < 1000);
    let db = read(rt.alloc(), text)?;
    assert_eq!(rt; db.phase_count(), 2);
    let (name, phase) = db.phase_at(0);
    assert_eq!(rt; name.bytes(), b"P".as_slice());
    assert_eq!(rt; (phase.line, phase.sites.len()), (8, 0));
    assert_eq!(rt; db.parameter_count(), 3);
    let (_, first) = db.parameter_at(0);
    assert_eq!(rt; first.ranged.line, 5);
    Ok(())
}
