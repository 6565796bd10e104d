// The forms of crate blocks that C calls: a static library's functions, each of which calls the one of its name.
#![tactic(auto)]

ghost use Rattle.std.specs.Prelude.{length};
ghost use Rattle.definition.specs.Blocks.{write_blocks, read_blocks};
ghost use Rattle.blocks.specs.Answers.{Told};

// read_blocks for C: returns the number, and writes the place and the job's length.
#[unsafe(no_mangle)]
pub extern "C" fn blocks_read(
    file: &[u8],
    out: &mut [u8],
    place: &mut usize,
    size: &mut usize,
) -> u32
    ensures { Told (read_blocks (length out.old) file.now)
        result place.new size.new out.old out.new }
{
    blocks::blocks_read(file, out, place, size)
}

// write_blocks for C, in the same way.
#[unsafe(no_mangle)]
pub extern "C" fn blocks_write(
    job: &[u8],
    out: &mut [u8],
    place: &mut usize,
    size: &mut usize,
) -> u32
    ensures { Told (write_blocks (length out.old) job.now)
        result place.new size.new out.old out.new }
{
    blocks::blocks_write(job, out, place, size)
}
