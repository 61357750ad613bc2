// "Fields are parted by one tab. Each field is a part of the line, read from where the last one ended, and a field is handed back as that part of the line itself."
ghost use Rattle.std.specs.Prelude.{◌≡◌, ◌==◌, eqb, length};
ghost use Rattle.std.specs.List.{position};
ghost use Rattle.model.specs.Field.{fields, field};
ghost use Rattle.field.specs.Place.{Starts};

// The place of the tab that ends the field at the front of the rest of a line; none where the field is the last one.
fn first_tab(rest: &[u8]) -> Option<usize>
    ensures { result ≡ position (λ byte. byte == 9) rest.now }
{
    rest.iter().position(|byte| *byte == b'\t')
}

// The field at the front of the rest of a line.
pub fn first(rest: &[u8]) -> &[u8]
    ensures { result.now ≡ field 0 (fields rest.now) }
{
    match first_tab(rest) {
        Some(tab) => &rest[..tab],
        None => rest,
    }
}

// How many fields the line has.
pub fn count(line: &[u8]) -> usize
    ensures { result ≡ length (fields line.now) }
{
    line.iter().filter(|byte| **byte == b'\t').count() + 1
}

// Has the line that many fields? It is not gone over past the first that is too many.
pub fn has_fields(line: &[u8], expected: usize) -> bool
    ensures { result ≡ eqb (length (fields line.now)) expected }
{
    let tabs = line
        .iter()
        .filter(|byte| **byte == b'\t')
        .take(expected)
        .count();
    tabs + 1 == expected
}

// Where the field at place `place` begins, if there is one.
pub fn start(line: &[u8], place: usize) -> Option<usize>
    ensures { Starts line.now place result }
{
    let mut at = 0;
    for _ in 0..place {
        at += first_tab(&line[at..])? + 1;
    }
    Some(at)
}
