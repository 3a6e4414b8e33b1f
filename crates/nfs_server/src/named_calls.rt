//! A connection over a source and a sink as one call by a well-known name, over the call that the program makes.

ghost use Rattle.std.specs.Prelude.{◌≡◌, ◌-◌, ◌^◌, ◌<◌, ◌↔◌, IsErrOf};
ghost use Rattle.nfs_server.specs.Connection.{HasCourse, scene};
ghost use Rattle.nfs_server.specs.Exchange.{rules};
ghost use Rattle.nfs_server.specs.Serves.{exported};
ghost use Rattle.nfs_server.specs.Sides.{device_of, sides};

use crate::duplex::Pair;
use crate::{Clock, ServeError, Service, Sink, Source, serve_duplex};
use nfs_tree::Tree;
use std::alloc::Global;

/// Serves a connection until its input ends, and returns how many bytes came after the last whole record. It behaves
/// like `serve_duplex`, and reads from the source and writes to the sink.
pub fn serve_connection<R: Source, W: Sink, S: Service, C: Clock>(
    alloc: Global,
    source: &mut R,
    sink: &mut W,
    service: &mut S,
    tree: &Tree,
    clock: &mut C,
) -> Result<usize, ServeError>
    requires reads { R.failures source.old < 2 ^ 64 - 1 }
    requires writes { W.failures sink.old < 2 ^ 64 - 1 }
    requires serves { (S.serves service.old).nodes ≡ tree.now.nodes }
    ensures serves { S.serves service.new ≡ S.serves service.old }
    ensures course { HasCourse (device_of R.gives R.fails W.takes W.fails)
        (rules (exported tree.now (S.serves service.old)) S.gives S.alike C.tells)
        (scene (sides source.old sink.old) service.old clock.old) result
        (scene (sides source.new sink.new) service.new clock.new) }
    ensures read_failed { IsErrOf result ServeError.Read
        ↔ R.failures source.old < R.failures source.new }
    ensures write_failed { IsErrOf result ServeError.Write
        ↔ W.failures sink.old < W.failures sink.new }
{
    let mut pair = Pair { source, sink };
    serve_duplex(alloc, &mut pair, service, tree, clock)
}
