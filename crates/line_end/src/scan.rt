// The next byte 10. Blocks without one are passed over whole. A block's bytes are all looked at, so that the compiler can compare them at once, without branches.
ghost use Rattle.std.specs.Prelude.{◌≡◌, ◌≤◌, length};
ghost use Rattle.line_end.specs.Index.{index_of};
ghost use Rattle.model.specs.Basics.{among};
ghost use Rattle.line_end.specs.Scan.{EndsAt, EndsIn};

const BLOCK: usize = 16;

// Where the line that starts at a place ends: at the next byte 10 or at the end of the input. A whole block, whose length the compiler knows, is searched apart from a shorter rest.
pub fn line_end(input: &[u8], start: usize) -> usize
    ensures { EndsAt input.now start result }
{
    if start > input.len() {
        return start;
    }
    let at = skip_blocks(input, start);
    if BLOCK <= input.len() - at {
        let end = at + BLOCK;
        return at + first_end(&input[at..end]);
    }
    at + first_end(&input[at..])
}

// Where the block with the line's end starts, after the blocks without one.
fn skip_blocks(input: &[u8], start: usize) -> usize
    requires { start ≤ length input.now }
    ensures { EndsIn input.now start result }
{
    let (blocks, _) = input[start..].as_chunks::<BLOCK>();
    let passed = blocks.iter().take_while(|block| !has_end(*block)).count();
    start + BLOCK * passed
}

// Does a byte of a block end a line? All of them are looked at: `any` would stop at the first, with a branch at each.
fn has_end(block: &[u8; BLOCK]) -> bool
    ensures { result ≡ among 10 block.now }
{
    block
        .iter()
        .fold(false, |found, byte| found | (*byte == 10))
}

// The place of the first byte that ends a line, or the number of bytes where none does: they are looked at from the last to the first.
fn first_end(bytes: &[u8]) -> usize
    ensures { result ≡ index_of 10 bytes.now }
{
    let mut first = bytes.len();
    for i in (0..bytes.len()).rev() {
        if bytes[i] == 10 {
            first = i;
        }
    }
    first
}
