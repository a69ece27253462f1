// The lines of the board's parts, and the words for a tower.
use bus::text::Hex;
use dryer_board::board;
use std::{fmt, io};
use towers::tower::Tower;

// A tower by its number.
#[derive(Clone, Copy, Debug, PartialEq, Eq)]
pub(crate) struct Named(pub Tower);

impl fmt::Display for Named {
    fn fmt<W: fmt::Write>(&self, f: &mut fmt::Formatter<W>) -> fmt::Result {
        f.write_str(match self.0 {
            Tower::One => "tower 1",
            Tower::Two => "tower 2",
        })
    }
}

// A part of the board, where it begins, and the tag of its cells.
#[derive(Clone, Copy, Debug, PartialEq, Eq)]
struct Part {
    what: &'static str,
    address: u32,
    tag: u8,
}

impl fmt::Display for Part {
    fn fmt<W: fmt::Write>(&self, f: &mut fmt::Formatter<W>) -> fmt::Result {
        let what = self.what;
        let address = Hex(self.address);
        let tag = self.tag;
        write!(f, "  {what:<17} from {address} on, tag {tag}")
    }
}

pub(crate) fn print(rt: &HostRuntime) -> io::Result<()> {
    println!(rt; "A board with two dryer towers")?;
    let parts = [
        Part {
            what: "hush over all",
            address: 0,
            tag: board::HUSH_TAG,
        },
        Part {
            what: "probes of tower 1",
            address: Tower::One.moisture_at(),
            tag: board::PROBES_TAG,
        },
        Part {
            what: "probes of tower 2",
            address: Tower::Two.moisture_at(),
            tag: board::SECOND_PROBES_TAG,
        },
        Part {
            what: "logs",
            address: Tower::One.log_at(0),
            tag: board::MEMORY_TAG,
        },
        Part {
            what: "limits",
            address: Tower::One.limit_at(),
            tag: board::IMAGE_TAG,
        },
    ];
    for part in parts {
        rt.println(part)?;
    }
    Ok(())
}
