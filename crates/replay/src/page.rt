// Text by way of a page, which is written out when it is full.
ghost use Rattle.std.specs.Prelude.{◌≡◌, ◌≤◌, length};

use std::fmt;

const SIZE: usize = 65_536;

#[derive(Drop)]
pub struct Page {
    bytes: [u8; SIZE],
    at: usize,
    // Where text ends on the page, none of it is lost.
    ghost on_page: { at ≤ length bytes },
}

impl Page {
    pub fn new() -> Page {
        Page {
            bytes: [0; SIZE],
            at: 0,
        }
    }

    pub fn print<D: fmt::Display + Drop>(&mut self, text: D) {
        // A page takes all text; only a `Display` that fails could answer `Err`, and none here does.
        let _ = fmt::Write::write_fmt(self, text);
    }

    // Writes out what the page holds.
    pub fn flush(&mut self)
        ensures { self.new.at ≡ 0 }
    {
        io::write_all(1, &self.bytes[..self.at]);
        self.at = 0;
    }

    fn put(&mut self, b: u8) {
        if self.at == SIZE {
            self.flush();
        }
        self.bytes[self.at] = b;
        self.at += 1;
    }
}

impl fmt::Write for Page {
    fn write_str(&mut self, s: &str) -> fmt::Result {
        for b in s.as_bytes() {
            self.put(*b);
        }
        Ok(())
    }
}
