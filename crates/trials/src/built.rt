// Sheets that are built by code, part by part.
use std::alloc::Global;
use std::io;
use std::io::Write;

#[derive(Clone, Copy)]
pub(crate) enum Part {
    // plain blocks from a first to a last, joined in a row, with an outer end at both ends of the row
    Chain(u8, u8),
    // the route from a first to a last block of a chain, up or down, so many times
    Routes(u8, u8, usize),
    // any text, so many times
    Text(&'static [u8], usize),
    // the bytes 0 to 255
    EveryByte,
}

#[derive(Clone, Copy)]
pub(crate) struct Built {
    pub(crate) name: &'static str,
    pub(crate) parts: &'static [Part],
}

// Adds a chain of plain blocks, a line for each.
fn add_chain(sheet: &mut Vec<u8>, first: u8, last: u8) -> io::Result<()> {
    for block in first..=last {
        if block == first {
            sheet.write_all(b"plain -")?;
        } else {
            write!(sheet, "plain {}.1", block - 1)?;
        }
        if block == last {
            sheet.write_all(b" -\n")?;
        } else {
            writeln!(sheet, " {}.0", block + 1)?;
        }
    }
    Ok(())
}

// Adds the line of a route through a chain.
fn add_route(sheet: &mut Vec<u8>, first: u8, last: u8) -> io::Result<()> {
    sheet.write_all(b"route")?;
    if first <= last {
        for block in first..=last {
            write!(sheet, " {block}")?;
        }
    } else {
        for block in (last..=first).rev() {
            write!(sheet, " {block}")?;
        }
    }
    sheet.write_all(b"\n")
}

// Adds a part, as often as it says.
fn add_part(sheet: &mut Vec<u8>, part: Part) -> io::Result<()> {
    // a part is data of which a sheet is built, kept in the table of the trials
    match part {
        Part::Chain(first, last) => add_chain(sheet, first, last)?,
        Part::Routes(first, last, times) => {
            // each line is the same text, so it is written once and then copied
            let mut line = Vec::new(*sheet.allocator());
            add_route(&mut line, first, last)?;
            for _ in 0..times {
                sheet.extend_from_slice(&line)?;
            }
        }
        Part::Text(text, times) => {
            for _ in 0..times {
                sheet.extend_from_slice(text)?;
            }
        }
        Part::EveryByte => {
            for byte in 0..=255 {
                sheet.push(byte)?;
            }
        }
    }
    Ok(())
}

// The sheet that the parts come to, one behind another.
pub(crate) fn build(heap: Global, parts: &[Part]) -> io::Result<Vec<u8>> {
    let mut sheet = Vec::new(heap);
    for part in parts {
        add_part(&mut sheet, *part)?;
    }
    Ok(sheet)
}
