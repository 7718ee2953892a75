// The plain way to take an edge out.
ghost use Rattle.std.specs.Prelude.{◌≡◌, ◌<◌, length};
ghost use Rattle.std.specs.List.{swap_remove};
ghost use Rattle.dist_net.specs.declared.Edge.{Edge};

use dist_net::DistNet;

/// Takes an edge out. The last edge takes its place, and all distances are found from nothing, over
/// the edges that are left.
pub fn erase_plain(net: &mut DistNet, place: usize)
    requires { place < length net.old.present.edges }
    ensures present { (d : Edge) → net.new.present ≡ record net.old.present { edges = swap_remove net.old.present.edges place d } }
    ensures committed { net.new.committed ≡ net.old.committed }
{
    let last = net.edges().len() - 1;
    net.swap_edges(place, last);
    net.keep_edges(last);
}
