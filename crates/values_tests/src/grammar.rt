use std::test::Fail;
use tdb_expr::{Expr, read_expr};

#[test]
fn a_long_text_is_read_as_fast_as_a_short_one(rt: HostRuntime) -> Result<(), Fail> {
    let mut text = Vec::new(rt.alloc());
    for _ in 0u32..1000000 {
        text.extend_from_slice(b"- - 1 * T ")?;
    }
    let expr = read_expr(rt.alloc(), text.as_slice())?;
    assert!(rt; matches!(expr, Expr::Sum(_)));
    text.push(b')')?;
    let expr = read_expr(rt.alloc(), text.as_slice())?;
    assert!(rt; matches!(expr, Expr::Unsupported));
    Ok(())
}
