use lp_core::{Column, fits};
use std::test::Fail;

/// A column by its cost and amounts, a target, and whether they fit.
#[derive(Clone, Copy)]
struct Fitting<'a> {
    cost: i128,
    amounts: &'a [i128],
    target: &'a [i128],
    fits: bool,
}

#[test]
fn plans_fit_up_to_their_limits(rt: HostRuntime) -> Result<(), Fail> {
    let alloc = rt.alloc();
    let cases = [
        Fitting {
            cost: 0,
            amounts: &[1],
            target: &[1 << 50],
            fits: true,
        },
        Fitting {
            cost: 0,
            amounts: &[1],
            target: &[(1 << 50) + 1],
            fits: false,
        },
        Fitting {
            cost: 0,
            amounts: &[1, 2],
            target: &[0, 0],
            fits: false,
        },
        Fitting {
            cost: 0,
            amounts: &[1, 2],
            target: &[2, -1],
            fits: false,
        },
        Fitting {
            cost: 0,
            amounts: &[1, 0, 0, 0, 0, 0, 0, 0, 0],
            target: &[1, 1, 1, 1, 1, 1, 1, 1, 1],
            fits: false,
        },
        Fitting {
            cost: 3,
            amounts: &[215, 0, 0, 0, 0, 0, 0, 0],
            target: &[0, 0, 0, 0, 0, 0, 0, 1],
            fits: true,
        },
        Fitting {
            cost: 3,
            amounts: &[215, 0, 0, 0, 0, 0, 0, 1],
            target: &[0, 0, 0, 0, 0, 0, 0, 1],
            fits: false,
        },
        Fitting {
            cost: -(1 << 55),
            amounts: &[1],
            target: &[7],
            fits: true,
        },
        Fitting {
            cost: (1 << 55) + 1,
            amounts: &[1],
            target: &[7],
            fits: false,
        },
        Fitting {
            cost: 1 << 54,
            amounts: &[1 << 40],
            target: &[7],
            fits: true,
        },
        Fitting {
            cost: (1 << 54) + 1,
            amounts: &[1 << 40],
            target: &[7],
            fits: false,
        },
        Fitting {
            cost: 0,
            amounts: &[0, 0],
            target: &[1, 1],
            fits: false,
        },
        Fitting {
            cost: 0,
            amounts: &[2, -1],
            target: &[1, 1],
            fits: false,
        },
        Fitting {
            cost: 0,
            amounts: &[2],
            target: &[1, 1],
            fits: false,
        },
    ];
    assert!(rt; fits(&[], &[1, 0]));
    assert!(rt; !fits(&[], &[]));
    for case in cases {
        let amounts = Vec::from_slice(alloc, case.amounts)?;
        let mut columns = Vec::new(alloc);
        columns.push(Column {
            cost: case.cost,
            amounts,
        })?;
        assert_eq!(rt; fits(&columns, case.target), case.fits);
    }
    Ok(())
}
