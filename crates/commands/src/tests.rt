use crate::answer::{Answer, write_answer};
use crate::command::{Command, read_command};
use crate::lines::next_line;
use crate::parts::parted;
use std::test::Fail;

#[test]
fn commands_are_read(rt: HostRuntime) {
    let wrong = [
        "", "watch ", "lay  1", "lay 07", "lay 100", "Lay 7", "lay 7\r",
    ];
    for line in wrong {
        assert!(rt; read_command(line.as_bytes()).is_none());
    }
    assert!(rt; matches!(read_command(b"lay 31"), Some(Command::Lay { route: 31 })));
}

#[test]
fn input_is_parted(rt: HostRuntime) -> Result<(), Fail> {
    let parts = parted(b"a\n..\n.\nb\n.");
    assert_eq!(rt; parts.sheet, b"a\n..\n".as_slice());
    let line = next_line(parts.commands).ok_or("no line")?;
    assert_eq!(rt; line.text, b"b".as_slice());
    assert_eq!(rt; line.rest, b".".as_slice());
    Ok(())
}

#[test]
fn answers_are_written(rt: HostRuntime) -> Result<(), Fail> {
    let mut out = String::new(rt.alloc());
    write_answer(&mut out, Answer::Done(1234567))?;
    write_answer(&mut out, Answer::Quiet)?;
    assert_eq!(rt; out.as_str(), "ok 1234567\nquiet\n");
    Ok(())
}
