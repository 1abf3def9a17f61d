// Text put where there is room for it.
ghost use Rattle.std.specs.Prelude.{◌≤◌};
ghost use Rattle.std.proofs.Math.ListN.{length as size};

/// The text at the front of lent bytes. What has no room is left out.
#[derive(Drop)]
pub struct Text<'a> {
    bytes: &'a mut [u8],
    pub end: usize,
    ghost within: { end ≤ size bytes.now },
}

impl<'a> Text<'a> {
    ghost use Rattle.std.specs.Prelude.{◌≡◌};
    ghost use Rattle.line.specs.Print.{decimal};
    ghost use Rattle.report.specs.Report.{spaced};
    ghost use Rattle.shown.specs.Shown.{numbered, tasks_text};
    ghost use Rattle.shown.specs.Puts.{Puts};

    /// No text yet.
    pub fn new(bytes: &'a mut [u8]) -> Text<'a>
        ensures end { result.end ≡ 0 }
        ensures bytes { result.bytes.now ≡ bytes.old }
        ensures loan { result.bytes.ghost_name ≡ bytes.entry.ghost_name }
    {
        Text { bytes, end: 0 }
    }

    /// Puts `text` at the end, if there is room.
    pub fn put(&mut self, text: &[u8])
        ensures { Puts text.now self.old self.new }
    {
        if self.bytes.len() - self.end < text.len() {
            return;
        }
        let bytes = &mut *self.bytes;
        self.end = line::put(bytes, self.end, text);
    }

    pub fn put_number(&mut self, v: u32)
        ensures { Puts (decimal v) self.old self.new }
    {
        let text = line::text_of(v, b' ');
        self.put(&text.bytes[text.from..10]);
    }

    /// A phrase and a number behind it.
    pub fn put_numbered(&mut self, phrase: &[u8], v: u32)
        ensures { Puts (numbered phrase.now v) self.old self.new }
    {
        self.put(phrase);
        self.put_number(v);
    }

    fn put_spaced(&mut self, ns: &[u32])
        ensures { Puts (spaced ns.now) self.old self.new }
    {
        for n in ns {
            self.put_numbered(b" ", *n);
        }
    }

    /// Tasks behind a space each, or that there is nobody.
    pub fn put_tasks(&mut self, tasks: &[u32])
        ensures { Puts (tasks_text tasks.now) self.old self.new }
    {
        if tasks.is_empty() {
            self.put(b" nobody");
        } else {
            self.put_spaced(tasks);
        }
    }
}
