use crate::{fill, read_image, refuse};
use base::Refusal;
use std::io::{Error, ErrorKind, Read, Result, Write};

// Gives one byte, is interrupted once, gives another, and fails from then on.
#[derive(Drop)]
struct Faulty {
    turn: u8,
}

impl Read for Faulty {
    fn read(&mut self, buf: &mut [u8]) -> Result<usize> {
        let turn = self.turn;
        self.turn = turn.saturating_add(1);
        if buf.is_empty() {
            return Ok(0);
        }
        match turn {
            0 | 2 => {
                buf[0] = turn;
                Ok(1)
            }
            1 => Err(Error::new(ErrorKind::Interrupted, "a signal")),
            _ => Err(Error::other("no more")),
        }
    }
}

// Takes one byte, is interrupted once, takes another, and fails from then on.
#[derive(Drop)]
struct Choked {
    turn: u8,
    taken: [u8; 2],
}

impl Write for Choked {
    fn write(&mut self, buf: &[u8]) -> Result<usize> {
        let turn = self.turn;
        self.turn = turn.saturating_add(1);
        if buf.is_empty() {
            return Ok(0);
        }
        match turn {
            0 => {
                self.taken[0] = buf[0];
                Ok(1)
            }
            1 => Err(Error::new(ErrorKind::Interrupted, "a signal")),
            2 => {
                self.taken[1] = buf[0];
                Ok(1)
            }
            _ => Err(Error::other("no more")),
        }
    }

    fn flush(&mut self) -> Result<()> {
        Ok(())
    }
}

#[test]
fn fills_what_is_lent(rt: HostRuntime) -> Result<()> {
    let mut bytes: &[u8] = b"abcde";
    let mut room = [0u8; 3];
    let n = fill(&mut bytes, &mut room)?;
    assert!(rt; n == 3 && room == *b"abc");
    let n = fill(&mut bytes, &mut room)?;
    assert!(rt; n == 2 && room == *b"dec");
    let n = fill(&mut bytes, &mut room)?;
    assert!(rt; n == 0 && room == *b"dec");
    Ok(())
}

#[test]
fn goes_on_after_a_signal(rt: HostRuntime) -> Result<()> {
    let mut reader = Faulty { turn: 0 };
    let mut room = [7u8; 2];
    let n = fill(&mut reader, &mut room)?;
    assert!(rt; n == 2 && room == [0, 2]);
    Ok(())
}

#[test]
fn answers_a_failed_read(rt: HostRuntime) -> Result<()> {
    let mut reader = Faulty { turn: 0 };
    let mut room = [7u8; 4];
    match fill(&mut reader, &mut room) {
        Ok(_) => assert!(rt; false),
        Err(e) => assert!(rt; e.kind() == ErrorKind::Other),
    }
    assert!(rt; room == [0, 2, 7, 7]);
    Ok(())
}

#[test]
fn tells_that_an_image_is_too_long(rt: HostRuntime) -> Result<()> {
    let mut room = [0u8; 4];
    let mut told = Vec::new(rt.alloc());
    let mut image: &[u8] = b"abc";
    let n = read_image(&mut image, &mut told, &mut room)?;
    assert!(rt; n == Some(3) && room == *b"abc\0" && told.is_empty());
    let mut image: &[u8] = b"abcd";
    let n = read_image(&mut image, &mut told, &mut room)?;
    assert!(rt; n.is_none() && told.as_slice() == b"too long\n".as_slice());
    Ok(())
}

#[test]
fn tells_a_refusal_by_its_number(rt: HostRuntime) -> Result<()> {
    let mut told = Vec::new(rt.alloc());
    refuse(&mut told, Refusal::WrongImage)?;
    assert!(rt; told.as_slice() == b"refused 3\n".as_slice());
    Ok(())
}

#[test]
fn answers_a_failed_write(rt: HostRuntime) -> Result<()> {
    let mut writer = Choked {
        turn: 0,
        taken: [7, 7],
    };
    match refuse(&mut writer, Refusal::WrongImage) {
        Ok(()) => assert!(rt; false),
        Err(e) => assert!(rt; e.kind() == ErrorKind::Other),
    }
    assert!(rt; writer.turn == 4 && writer.taken == *b"re");
    let mut room = [7u8; 4];
    let mut full: &mut [u8] = &mut room;
    match refuse(&mut full, Refusal::WrongImage) {
        Ok(()) => assert!(rt; false),
        Err(e) => assert!(rt; e.kind() == ErrorKind::WriteZero),
    }
    assert!(rt; room == *b"refu");
    Ok(())
}
