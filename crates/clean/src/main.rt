// Reads a sheet on standard input, and prints its stock as a clean sheet.
#![tactic(auto)]

use printout::{clean_sheet, serve};

fn main(rt: HostRuntime) {
    let heap = rt.alloc();
    let _ = serve(heap, rt.stdin(), &mut rt.stdout(), |sheet| {
        clean_sheet(heap, sheet)
    });
}
