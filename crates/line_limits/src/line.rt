// What the book holds of a line.
ghost use Rattle.std.specs.Prelude.{◌≡◌};
ghost use Rattle.line_limits.specs.Line.{declared_opening, kept_patterns};

// A line of the book.
#[derive(Clone, Copy, Default)]
pub struct Line {
    pub declared: bool,
    // What it opens with. Where it is not declared this says nothing, and is left as it is read.
    pub opening: u64,
    // The last closed year.
    pub closed: Option<u64>,
    // Its closing. Where no year is closed it says nothing, and a PATT leaves it as it is read.
    pub closing: u64,
    pub patterns: Patterns,
}

// As many patterns as `count`: of the accident year `last` and the years before it.
#[derive(Clone, Copy, Default)]
pub struct Patterns {
    // Where none is kept it says nothing, and is left as it is read.
    pub last: u64,
    pub count: u64,
}

impl Line {
    // What it opens with: none where it is not declared.
    pub fn declared_opening(self) -> Option<u64>
        ensures { result ≡ declared_opening self }
    {
        self.declared.then_some(self.opening)
    }

    // The patterns that it keeps: none where their count is 0.
    pub fn kept_patterns(self) -> Option<Patterns>
        ensures { result ≡ kept_patterns self }
    {
        (self.patterns.count > 0).then_some(self.patterns)
    }
}
