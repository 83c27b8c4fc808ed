// The sizing program: reads a sheet on standard input, and prints the first plan of its stock.
#![tactic(auto)]

use printout::serve;
use sizing::respond;

fn main(rt: HostRuntime) {
    let heap = rt.alloc();
    let _ = serve(heap, rt.stdin(), &mut rt.stdout(), |sheet| {
        respond(heap, sheet)
    });
}
