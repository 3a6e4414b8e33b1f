//! What a rule decides: the answer, and the effect on the state.

use nfs_state::Effect;
use nfs_xdr::OpResult;

/// How an operation is answered, and what its entry does to the state.
#[derive(Drop)]
pub struct Decision {
    pub answer: OpResult,
    pub effect: Effect,
}
