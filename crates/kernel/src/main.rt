// Shows the trial of a sheet's stock: reads a sheet on standard input, and prints each number of drives that is tried.
#![tactic(auto)]

use printout::serve;
use trying::respond;

fn main(rt: HostRuntime) {
    let heap = rt.alloc();
    let _ = serve(heap, rt.stdin(), &mut rt.stdout(), |sheet| {
        respond(heap, sheet)
    });
}
