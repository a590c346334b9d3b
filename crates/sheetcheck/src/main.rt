// Reads a sheet from standard input and prints what was found. Ends with status 1 where the sheet is refused.
#![tactic(auto)]

use anyhow::anyhow;
use report::report_on;
use std::io;
use std::io::Read;

// A sheet has at most 8192 bytes: one more shows that it is too long.
const ENOUGH_BYTES: u64 = 8193;

fn sheet(rt: &HostRuntime) -> io::Result<Vec<u8>> {
    let mut bytes = Vec::new(rt.alloc());
    rt.stdin().take(ENOUGH_BYTES).read_to_end(&mut bytes)?;
    Ok(bytes)
}

fn main(rt: HostRuntime) -> anyhow::Result<()> {
    let sheet = sheet(&rt)?;
    let report = report_on(rt.alloc(), sheet.as_slice())?;
    rt.print(report.text.as_str())?;
    if report.accepted {
        Ok(())
    } else {
        Err(anyhow!("the sheet is refused"))
    }
}
