// Frames: two bytes with the length of what follows, high byte first, then a version, a kind, and a block in two bytes.
ghost use Rattle.std.specs.Prelude.{◌≡◌, ◌+◌, ◌≤◌, max, length, drop};
ghost use Rattle.framelink.specs.Frames.{change_of, payload_in, payload_seen, past, heard_in};

use crate::fault::LinkFault;

// What a block has come to be.
#[derive(Clone, Copy)]
pub(crate) enum Change {
    Occupied,
    Cleared,
}

// No change has this number.
#[derive(Clone, Copy)]
pub(crate) struct NoChange;

impl TryFrom<u8> for Change {
    type Error = NoChange;

    ghost try_from_gives = { λ kind r. r ≡ change_of kind };

    fn try_from(kind: u8) -> Result<Change, NoChange> {
        match kind {
            1 => Ok(Change::Occupied),
            2 => Ok(Change::Cleared),
            _ => Err(NoChange),
        }
    }
}

// What a frame says: a block, and what it has come to be.
// The frame's offset is no part of it: `occupy` and `clear` would be given the change again, by which they were chosen.
#[derive(Clone, Copy)]
pub(crate) struct Heard {
    pub(crate) block: u8,
    pub(crate) change: Change,
}

// What stands behind the length field of the frame at an offset; nothing where no bytes are left.
pub(crate) fn payload(bytes: &[u8], at: usize) -> Result<Option<&[u8]>, LinkFault>
    ensures payload { payload_seen result ≡ payload_in (drop at bytes.now) at }
    ensures within { at + past (payload_seen result) ≤ max at (length bytes.now) }
{
    match bytes.get(at..).unwrap_or(&[]) {
        [] => Ok(None),
        [high, low, rest @ ..] => {
            let length = u16::from_be_bytes([*high, *low]);
            rest.get(..length as usize)
                .map(Some)
                .ok_or(LinkFault::CutShort { at })
        }
        [_] => Err(LinkFault::CutShort { at }),
    }
}

// What the frame at an offset says by its payload, in a yard of so many blocks.
pub(crate) fn hear(payload: &[u8], at: usize, blocks: usize) -> Result<Heard, LinkFault>
    requires { blocks ≤ 64 }
    ensures { result ≡ heard_in payload.now at blocks }
{
    let [version, kind, high, low] = payload else {
        return Err(LinkFault::Length { at });
    };
    if *version != 1 {
        return Err(LinkFault::Version { at });
    }
    let change = Change::try_from(*kind).map_err(|_| LinkFault::Kind { at })?;
    let block = u16::from_be_bytes([*high, *low]);
    if block as usize >= blocks {
        return Err(LinkFault::NoBlock { at });
    }
    Ok(Heard {
        block: block as u8,
        change,
    })
}
