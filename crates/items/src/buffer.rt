// A window of bytes, and how far it has been read.
ghost use Rattle.std.specs.Prelude.{◌≡◌, ◌+◌, ◌≤◌, length, if◌then◌else◌, Some, None, nat_lt, slice_index};
ghost use Rattle.msgpack.specs.Overview.{marker};
ghost use Rattle.items.specs.Items.{head_of, null_at};

use crate::fault::{DecodeError, ItemFault};
use crate::head::Head;
use msgpack::marker::Marker;

// Window and place, and no shorter and shorter slice: faults and parts tell their places from the window's start.
#[derive(Drop)]
pub struct Buffer<'a> {
    pub window: &'a [u8],
    pub pos: usize,
    ghost within: { pos ≤ length window.now },
}

impl<'a> Buffer<'a> {
    // The whole window, unread.
    pub fn new(window: &'a [u8]) -> Buffer<'a>
        ensures window { result.window.now ≡ window.now }
        ensures place { result.pos ≡ 0 }
    {
        Buffer { window, pos: 0 }
    }

    // The place of the next item, from the window's start.
    pub fn place(&self) -> usize
        ensures { result ≡ self.now.pos }
    {
        self.pos
    }

    // What the next item's first byte announces; none at the window's end.
    pub(crate) fn head(&self) -> Option<Head>
        ensures { result ≡ (if nat_lt self.now.pos (length self.now.window.now) then Some (head_of (marker (slice_index self.now.window.now self.now.pos))) else None) }
    {
        self.window
            .get(self.pos)
            .map(|byte| Head::from(Marker::from(*byte)))
    }

    // A fault of the next item.
    pub(crate) fn fault(&self, cause: DecodeError) -> ItemFault
        ensures { result ≡ record { cause = cause; place = self.now.pos } }
    {
        cause.at(self.pos)
    }

    // Passes over the next item if it is null, and says whether it was.
    pub fn handle_null_marker(&mut self) -> bool
        ensures value { result ≡ null_at self.old.window.now self.old.pos }
        ensures place { self.new.pos ≡ (if result then self.old.pos + 1 else self.old.pos) }
        ensures window { self.new.window ≡ self.old.window }
    {
        let null = matches!(self.head(), Some(Head::Null));
        if null {
            self.pos += 1;
        }
        null
    }
}
