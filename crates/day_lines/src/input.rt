// Standard input, in blocks.
ghost use Rattle.std.specs.Prelude.{◌≤◌, length, IfOk};

use std::io;
use std::io::Read;

// Reads until the block is full or the input ends: how many bytes came. By a loop: no method of `Read` fills what comes and says how much.
pub fn fill<R: Read>(input: &mut R, block: &mut [u8]) -> io::Result<usize>
    ensures { IfOk result (λ n. n ≤ length block.new) }
{
    let mut done = 0;
    while done < block.len() {
        let came = input.read(&mut block[done..])?;
        if came == 0 {
            break;
        }
        done += came;
    }
    Ok(done)
}
