//! Records into memory, as `csv` writes them.

ghost use Rattle.std.specs.Prelude.{◌≡◌, ◌++◌, [], IfOk, OnOk};
ghost use Rattle.cal_scan.specs.Lines.{texts};
ghost use Rattle.cal_table.specs.Tables as tables;
ghost use Rattle.cal_table.specs.Records.{text_in, IsBetween, ArePlain};

use csv::Writer;
use std::alloc::{AllocError, Global};

/// No records yet.
pub(crate) fn no_rows(alloc: Global) -> Writer<Vec<u8>>
    ensures between { IsBetween result }
    ensures empty { text_in result ≡ [] }
{
    Writer::from_writer(Vec::new(alloc))
}

/// Writes a record, none of whose fields needs quotes. Into memory this fails only where memory runs out.
pub(crate) fn put_row(rows: &mut Writer<Vec<u8>>, fields: &[&[u8]]) -> Result<(), AllocError>
    requires between { IsBetween rows.old }
    requires plain { ArePlain (texts fields.now) }
    ensures between { OnOk result (IsBetween rows.new) }
    ensures text { OnOk result (text_in rows.new ≡ text_in rows.old ++ tables.row (texts fields.now)) }
{
    let Ok(()) = rows.write_fields(fields) else {
        return Err(AllocError);
    };
    Ok(())
}

/// The text of all records.
pub(crate) fn text_of(rows: Writer<Vec<u8>>) -> Result<Vec<u8>, AllocError>
    ensures { IfOk result (λ text. text.items ≡ text_in rows) }
{
    let Ok(text) = rows.into_inner() else {
        return Err(AllocError);
    };
    Ok(text)
}
