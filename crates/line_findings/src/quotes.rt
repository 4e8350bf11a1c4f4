//! What stands in quotes and brackets of a text of TOML, and where its statements begin.
ghost use Rattle.std.specs.Prelude.{◌≤◌, length};

/// What a byte of a text stands in.
#[derive(Clone, Copy, PartialEq, Eq)]
enum Within {
    Code,
    Comment,
    /// Behind the first quote of a text, and behind the second.
    Once(u8),
    Twice(u8),
    /// In a text of one line, and there behind a backslash.
    Short(u8),
    ShortEscape,
    /// In a text of lines, behind so many quotes in a row, and there behind a backslash.
    Long(u8, u8),
    LongEscape,
    /// Behind the third quote in a row, which ends a text of lines.
    Ended(u8),
}

impl Within {
    /// Whether a byte there is none of a text or a comment.
    fn is_code(self, byte: u8) -> bool {
        match self {
            Within::Code => true,
            Within::Twice(quote) | Within::Ended(quote) => byte != quote,
            _ => false,
        }
    }

    /// What the byte behind this one stands in.
    fn after(self, byte: u8) -> Within {
        if self.is_code(byte) {
            return behind_code(byte);
        }
        match self {
            Within::Comment if byte == b'\n' => Within::Code,
            Within::Once(quote) if byte == quote => Within::Twice(quote),
            Within::Once(quote) | Within::Short(quote) => behind_short(quote, byte),
            Within::ShortEscape => Within::Short(b'"'),
            Within::Twice(quote) => Within::Long(quote, 0),
            Within::Long(quote, count) => behind_long(quote, count, byte),
            Within::LongEscape => Within::Long(b'"', 0),
            within => within,
        }
    }
}

fn behind_code(byte: u8) -> Within {
    match byte {
        b'"' | b'\'' => Within::Once(byte),
        b'#' => Within::Comment,
        _ => Within::Code,
    }
}

fn behind_short(quote: u8, byte: u8) -> Within {
    match byte {
        b'\\' if quote == b'"' => Within::ShortEscape,
        _ if byte == quote => Within::Code,
        _ => Within::Short(quote),
    }
}

fn behind_long(quote: u8, count: u8, byte: u8) -> Within {
    match byte {
        b'\\' if quote == b'"' => Within::LongEscape,
        _ if byte != quote => Within::Long(quote, 0),
        _ if count < 2 => Within::Long(quote, count.saturating_add(1)),
        _ => Within::Ended(quote),
    }
}

/// What stands before the first such byte that is in no quotes.
pub(crate) fn before_mark(text: &[u8], mark: u8) -> &[u8]
    ensures { length result.now ≤ length text.now }
{
    let mut within = Within::Code;
    for (place, byte) in text.iter().enumerate() {
        if *byte == mark && within.is_code(*byte) {
            return text.get(..place).unwrap_or(text);
        }
        within = within.after(*byte);
    }
    text
}

/// A reader of lines that knows whether a statement may begin.
#[derive(Clone, Copy)]
pub(crate) struct Statements {
    within: Within,
    /// How many brackets are open.
    depth: usize,
}

impl Statements {
    pub(crate) const START: Statements = Statements {
        within: Within::Code,
        depth: 0,
    };

    /// Whether the next line begins a statement.
    pub(crate) fn may_begin(self) -> bool {
        self.depth == 0 && self.within == Within::Code
    }

    /// Behind a line with its end.
    pub(crate) fn behind(self, line: &[u8]) -> Statements {
        let mut within = self.within;
        let mut depth = self.depth;
        for byte in line {
            if within.is_code(*byte) {
                depth = depth_behind(depth, *byte);
            }
            within = within.after(*byte);
        }
        Statements { within, depth }
    }
}

fn depth_behind(depth: usize, byte: u8) -> usize {
    match byte {
        b'[' | b'{' => depth.saturating_add(1),
        b']' | b'}' => depth.saturating_sub(1),
        _ => depth,
    }
}
