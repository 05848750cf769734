use cal_dec::print_whole;
use std::alloc::{AllocError, Global};
use tdb_expr::{Expr, Factor, Product};

fn push_factor(factor: &Factor, out: &mut Vec<u8>) -> Result<(), AllocError> {
    match factor {
        Factor::Number(number) => {
            print_whole(number.mantissa as i128, out)?;
            out.push(b'e')?;
            print_whole(number.exponent as i128, out)
        }
        Factor::T => {
            out.push(b'T')?;
            Ok(())
        }
        Factor::Power(power) => {
            out.extend_from_slice(b"T^")?;
            print_whole(*power as i128, out)
        }
        Factor::LnT => out.extend_from_slice(b"LN"),
        Factor::Name(name) => out.extend_from_slice(name.bytes()),
    }
}

fn push_product(product: &Product, out: &mut Vec<u8>) -> Result<(), AllocError> {
    out.push(if product.negative { b'-' } else { b'+' })?;
    for (place, factor) in product.factors.as_slice().iter().enumerate() {
        if place > 0 {
            out.push(b'*')?;
        }
        push_factor(factor, out)?;
    }
    Ok(())
}

/// The parts of an expression, for comparison: each product with its sign, its factors with `*` between them.
pub fn rendered(alloc: Global, expr: &Expr) -> Result<Vec<u8>, AllocError> {
    let mut out = Vec::new(alloc);
    match expr {
        Expr::Unsupported => out.extend_from_slice(b"none")?,
        Expr::Sum(products) => {
            for (place, product) in products.as_slice().iter().enumerate() {
                if place > 0 {
                    out.push(b' ')?;
                }
                push_product(product, &mut out)?;
            }
        }
    }
    Ok(out)
}
