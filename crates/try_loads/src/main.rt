// Prints what the walk that sums the loads gives for the net on standard input (02, wish 4): for each stage a line with its number of edges and the load at its
// root on each layer; or `refused` and the number of the first fault. The gate compares it with the second implementation of `tests/`.
#![tactic(auto)]

ghost use Rattle.std.specs.Prelude.{◌≡◌, ◌+◌, ◌*◌, length};
ghost use Rattle.rules.specs.Bytes.{max_layers, max_nodes, max_stages};

use loads::{NODE_ROWS, loads};
use reader::read;
use std::io;
use streams::read_full;
use tree::{StagedNet, WireStages, stages};
use words::{Net, WORDS};

// Prints the line of stage t: its number of edges, and the loads at its root, one on each layer.
fn print_stage(rt: &impl Print, t: usize, edges: usize, load: &[u32]) -> io::Result<()> {
    print!(rt; "stage {t} edges {edges} loads")?;
    for sum in load {
        print!(rt; " {}", *sum)?;
    }
    println!(rt; "")
}

// Prints the line of each stage. Their roots, in node order, are the driver and the nodes below which another stage begins than that of the edge above.
fn print_stages(
    rt: &impl Print,
    staged: &StagedNet<'_>,
    edges: &[usize],
    load: &[u32],
) -> io::Result<()>
    requires { (length edges.now ≡ max_stages) × (length load.now ≡ (max_nodes + 1) * max_layers) }
{
    for i in 0..=staged.net.nodes {
        let t = staged.below[i];
        if i == 0 || t != staged.stage[i] {
            let row = i * staged.net.layers;
            print_stage(rt, t, edges[t], &load[row..row + staged.net.layers])?;
        }
    }
    Ok(())
}

// Walks over the net once on all layers, and prints what the walk gives.
fn print_walk(rt: &impl Print, net: &Net<'_>) -> io::Result<()> {
    let mut stage = [0usize; NODE_ROWS];
    let mut below = [0usize; NODE_ROWS];
    stages(net, &mut stage, &mut below);
    let staged = StagedNet {
        net: *net,
        stage: &stage,
        below: &below,
    };
    let first = [0u8; rules::MAX_STAGES];
    let mut load = [0u32; NODE_ROWS * rules::MAX_LAYERS];
    let wires = WireStages {
        net: *net,
        below: &below,
    };
    let edges = loads(&wires, &first, net.layers, &mut load);
    print_stages(rt, &staged, &edges, &load)
}

// Reads the net, and prints what the walk gives for it, or the refusal of a net that cannot be read.
fn print_net(rt: &impl Print, net: &[u8]) -> io::Result<()> {
    let mut words = [0u32; WORDS];
    match read(net, true, &mut words) {
        Ok(n) => {
            let net = Net::of(&words);
            print_walk(rt, &net)
        }
        Err(why) => println!(rt; "refused {}", u8::from(why)),
    }
}

fn main(rt: HostRuntime) -> io::Result<()> {
    let mut net = [0u8; 65536];
    let size = read_full(&mut rt.reader(), &mut net)?;
    print_net(&rt, &net[..size])
}
