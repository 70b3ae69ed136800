// A command is scanned byte by byte, up to where it ends.
ghost use Rattle.std.specs.Prelude.{◌≡◌, ◌<◌, ◌≤◌, ◌^◌, ◌+◌, ◌-◌};
ghost use Rattle.soar_edge.specs.Cutting.{after_byte, after_open, after_quoted, comment, depth_after, ends_there, is_end, is_quoted};
ghost use Rattle.soar_edge.specs.Scanning.{inside_of};

/// What a byte stands in.
#[derive(Clone, Copy)]
pub enum Inside {
    OpenText,
    Comment,
    Bars,
    String,
    EscapedInBars,
    EscapedInString,
}

impl Inside {
    /// What the byte behind this one stands in.
    pub fn after(self, byte: u8) -> Inside
        ensures { inside_of result ≡ after_byte (inside_of self) byte }
    {
        match self {
            Inside::OpenText => after_open(byte),
            Inside::Comment => after_comment(byte),
            Inside::Bars => after_quoted(byte, b'|', self, Inside::EscapedInBars),
            Inside::String => after_quoted(byte, b'"', self, Inside::EscapedInString),
            Inside::EscapedInBars => Inside::Bars,
            Inside::EscapedInString => Inside::String,
        }
    }

    /// Whether a newline here belongs to the command.
    fn is_quoted(self) -> bool
        ensures { result ≡ is_quoted (inside_of self) }
    {
        !matches!(self, Inside::OpenText | Inside::Comment)
    }
}

fn after_open(byte: u8) -> Inside
    ensures { inside_of result ≡ after_open byte }
{
    match byte {
        b'|' => Inside::Bars,
        b'"' => Inside::String,
        b'#' => Inside::Comment,
        _ => Inside::OpenText,
    }
}

fn after_comment(byte: u8) -> Inside
    ensures { inside_of result ≡ after_byte comment byte }
{
    if byte == b'\n' {
        Inside::OpenText
    } else {
        Inside::Comment
    }
}

/// A backslash takes the next byte with it.
fn after_quoted(byte: u8, quote: u8, here: Inside, escaped: Inside) -> Inside
    ensures { inside_of result ≡ after_quoted quote (inside_of here) (inside_of escaped) byte }
{
    if byte == b'\\' {
        escaped
    } else if byte == quote {
        Inside::OpenText
    } else {
        here
    }
}

/// How far a command was scanned: no byte up to here ends it.
#[derive(Clone, Copy)]
pub struct Scan {
    /// How many bytes were scanned.
    pub size: usize,
    /// What the next byte stands in.
    pub inside: Inside,
    /// How many braces are open.
    pub depth: usize,
}

impl Scan {
    /// Nothing was scanned.
    pub fn new() -> Scan
        ensures { result ≡ record { size = 0; inside = Inside.OpenText; depth = 0 } }
    {
        Scan {
            size: 0,
            inside: Inside::OpenText,
            depth: 0,
        }
    }

    /// Whether the next byte ends the command.
    pub fn is_end(self, byte: u8) -> bool
        ensures { result ≡ is_end (inside_of self.inside) self.depth byte }
    {
        byte == b'\n' && self.ends_there()
    }

    /// Whether the command may end here.
    pub fn ends_there(self) -> bool
        ensures { result ≡ ends_there (inside_of self.inside) self.depth }
    {
        self.depth == 0 && !self.inside.is_quoted()
    }

    /// The scan past the next byte, which does not end the command.
    pub fn past(self, byte: u8) -> Scan
        requires size { self.size < 2 ^ 32 }
        requires depth { self.depth ≤ self.size }
        ensures size { result.size ≡ self.size + 1 }
        ensures inside { inside_of result.inside ≡ after_byte (inside_of self.inside) byte }
        ensures depth { result.depth ≡ depth_after (inside_of self.inside) self.depth byte }
        ensures shallow { result.depth ≤ result.size }
    {
        Scan {
            size: self.size + 1,
            inside: self.inside.after(byte),
            depth: self.depth_after(byte),
        }
    }

    /// A brace that closes none counts for nothing.
    fn depth_after(self, byte: u8) -> usize
        requires { self.depth < 2 ^ 32 }
        ensures depth { result ≡ depth_after (inside_of self.inside) self.depth byte }
        ensures most { result ≤ self.depth + 1 }
    {
        match (self.inside, byte) {
            (Inside::OpenText, b'{') => self.depth + 1,
            (Inside::OpenText, b'}') => self.depth.saturating_sub(1),
            _ => self.depth,
        }
    }
}
