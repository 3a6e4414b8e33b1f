//! The memory of a connection, which the next connection of the same worker uses again.

ghost use Rattle.std.specs.Prelude.{◌≡◌, ◌-◌, ◌^◌, ◌<◌, ◌↔◌, IsErrOf};
ghost use Rattle.nfs_server.specs.Connection.{HasCourse, scene};
ghost use Rattle.nfs_server.specs.Exchange.{rules};
ghost use Rattle.nfs_server.specs.Serves.{exported};

use crate::connection::{PIECE_LEN, serve_turns};
use crate::replies::Replies;
use crate::{Clock, Duplex, ServeError, Service};
use nfs_tree::{Export, Tree};
use std::alloc::{AllocError, Global};
use std::marker::Model;

/// What a connection needs of memory beside its records: the bytes of one read, and the calls, replies and results of
/// one batch. It is made once, and serves one connection after the other.
#[derive(Drop)]
pub struct Buffers {
    piece: Vec<u8>,
    replies: Replies,
}

impl Model for Buffers {
    ghost use Rattle.std.specs.Prelude.{◌≡◌, [], length};
    ghost use Rattle.nfs_server.specs.declared.connection.TheConstants.{PIECE_LEN};

    ghost Value = { Unit {0} };

    ghost view = { λ b. tt };

    ghost invariant = { λ b. (length b.piece.items ≡ PIECE_LEN)
        × (b.replies.pending.items ≡ []) × (b.replies.answered.items ≡ [])
        × (b.replies.gathered.items ≡ []) };
}

impl Buffers {
    /// All that one connection after the other needs, with its memory.
    pub fn new(alloc: Global) -> Result<Buffers, AllocError> {
        let piece = vec![in alloc; 0; PIECE_LEN]?;
        let replies = Replies::with_room(alloc)?;
        Ok(Buffers { piece, replies })
    }

    /// Serves a connection as `serve_duplex` does, which has buffers of its own.
    pub fn serve<D: Duplex, S: Service, C: Clock>(
        &mut self,
        device: &mut D,
        service: &mut S,
        tree: &Tree,
        clock: &mut C,
    ) -> Result<usize, ServeError>
        requires reads { D.read_failures device.old < 2 ^ 64 - 1 }
        requires writes { D.write_failures device.old < 2 ^ 64 - 1 }
        requires serves { (S.serves service.old).nodes ≡ tree.now.nodes }
        ensures serves { S.serves service.new ≡ S.serves service.old }
        ensures course { HasCourse D.device
            (rules (exported tree.now (S.serves service.old)) S.gives S.alike C.tells)
            (scene device.old service.old clock.old) result
            (scene device.new service.new clock.new) }
        ensures read_failed { IsErrOf result ServeError.Read
            ↔ D.read_failures device.old < D.read_failures device.new }
        ensures write_failed { IsErrOf result ServeError.Write
            ↔ D.write_failures device.old < D.write_failures device.new }
    {
        let export = Export {
            tree,
            profile: service.profile(),
            epoch: service.epoch(),
        };
        let buffer = self.piece.as_mut_slice();
        let result = serve_turns(&mut self.replies, buffer, device, service, &export, clock);
        // What an error left.
        self.replies.clear_all();
        result
    }
}
