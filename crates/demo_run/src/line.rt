ghost use Rattle.std.specs.Prelude.{◌≡◌, IfOk};
ghost use Rattle.demo_run.specs.Counts.{demo_line};

use crate::OutOfMemory;
use crate::counts::count_run;
use crate::demo::Demo;
use std::alloc::Global;

/// The line that counts a run.
pub fn demo_line(alloc: Global, seed: u64, steps: u32) -> Result<Vec<u8>, OutOfMemory>
    ensures { IfOk result (λ line. line.items ≡ demo_line seed steps) }
{
    let mut demo = Demo::new(alloc)?;
    demo.load_all()?;
    demo.draw_steps(seed, steps)?;
    demo.take_all()?;
    count_run(&demo, steps).line(alloc)
}
