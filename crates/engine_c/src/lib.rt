// The house as a machine, for callers in C: tests/c/boomdate.h declares it.
// Named for C here alone, so that programs which use the crate don't export the name.
#![tactic(auto)]

ghost use Rattle.engine.specs.Entry.{StepNumbered};
ghost use Rattle.engine.specs.Own.{own};

// One step, with its answer as one number: eight times its own, and 0 for done, 1 read, 2 write, 3 shows, 4 no.
#[unsafe(no_mangle)]
pub extern "C" fn boomdate_step(memory: &mut [u64], kind: u64, bytes: &[u8], out: &mut [u8]) -> u64
    ensures { StepNumbered own memory.old kind bytes.now out.old result memory.new out.new }
{
    engine::boomdate_step(memory, kind, bytes, out)
}
