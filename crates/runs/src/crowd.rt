// Networks of nodes alone, without an edge or a shortcut: one node, the seven of the reference network, and as many as there may be.
ghost use Rattle.std.specs.Prelude.{◌<◌, ◌^◌};

use crate::ask::{Case, both};
use crate::sheets::{by_rail, endless, on_foot};
use network::lent::{Network, Shortcuts};
use network::order::CORE;
use std::io::Print;

fn unlinked<'a>(node_modes: &'a [u8], node_ranks: &'a [u16]) -> Network<'a> {
    Network {
        node_modes,
        node_ranks,
        tails: &[],
        heads: &[],
        modes: &[],
        lengths: &[],
    }
}

// One node, in rooms that are larger than it needs: all of them are zeroed.
pub(crate) fn alone(stdout: &impl Print, name: &str) {
    both::<8, 112, 224>(
        stdout,
        Case::new(name, endless(), 0, 0),
        &unlinked(&[1], &[CORE]),
        &Shortcuts::NONE,
    );
}

// As many nodes as the largest rooms are for, or one too many: the rooms are too short then as well, but the size is told first.
fn full<const NODES: usize>(stdout: &impl Print, name: &str, from: u16, to: u16)
    requires { NODES < 2 ^ 32 }
{
    both::<8, 8192, 16384>(
        stdout,
        Case::new(name, on_foot(), from, to),
        &unlinked(&[1; NODES], &[CORE; NODES]),
        &Shortcuts::NONE,
    );
}

fn seven(stdout: &impl Print, name: &str, from: u16, to: u16) {
    both::<8, 112, 224>(
        stdout,
        Case::new(name, by_rail(), from, to),
        &unlinked(&[1, 1, 1, 2, 2, 1, 1], &[5, 0, CORE, CORE, CORE, CORE, 5]),
        &Shortcuts::NONE,
    );
}

pub(crate) fn run(stdout: &impl Print) {
    full::<512>(stdout, "512 nodes, 0 to 511", 0, 511);
    full::<512>(stdout, "512 nodes, 511 to 511", 511, 511);
    full::<512>(stdout, "512 nodes, 0 to 512", 0, 512);
    full::<513>(stdout, "513 nodes", 0, 0);
    seven(stdout, "no edges, 0 to 6", 0, 6);
    seven(stdout, "no edges, 6 to 6", 6, 6);
}
