//! What a call says of itself between two of its steps, so that nobody else looks at its phase.
ghost use Rattle.std.specs.Prelude.{◌≡◌, [], ◌∷◌, MatchOption};
ghost use Rattle.std.specs.Option.{option_copied, option_to_list};
ghost use Rattle.congee.specs.protocol.Answers.{reply_in};
ghost use Rattle.congee.specs.protocol.State.{ended, is_asking, is_done, is_past, is_pending, may_write, retiring, taken};

use crate::protocol::machine::Machine;
use crate::protocol::phase::{Kind, Phase};
use crate::protocol::scan::Stage;
use crate::protocol::store::NodeName;
use judge::{Payload, Reply};

impl<C: NodeName, P: Payload> Machine<C, P> {
    /// A call that has ended.
    pub fn ended(root: C) -> Self
        ensures { result ≡ ended root }
    {
        Machine {
            root,
            key: 0,
            kind: Kind::Get,
            given: None,
            phase: Phase::Ended,
        }
    }

    /// The node that its next step marks and hands over for its destruction.
    #[inline(always)]
    pub fn retires(&self) -> Option<C>
        ensures { result ≡ retiring self.now.phase }
    {
        match &self.phase {
            Phase::Retire { node, .. } => Some(*node),
            // The step of every other phase hands nothing over.
            _ => None,
        }
    }

    /// The nodes that it has taken out of the tree and not yet handed over: one, and another one or none.
    #[inline(always)]
    pub fn taken(&self) -> Option<(C, Option<C>)>
        ensures { MatchOption result (taken self.now.phase ≡ []) (λ t. taken self.now.phase ≡ t.0 ∷ option_to_list t.1) }
    {
        match &self.phase {
            Phase::Obsolete { node, next, .. } => Some((*node, *next)),
            Phase::Retire { node, next, .. } => Some((*node, *next)),
            // In the other phases it has taken none out, or has handed it over.
            _ => None,
        }
    }

    /// Whether its next step takes its closure's answer.
    pub fn asks(&self) -> bool
        ensures { result ≡ is_asking self.now.phase }
    {
        match &self.phase {
            Phase::AskOld { .. } => true,
            Phase::AskNew { .. } => true,
            // No other step takes an answer.
            _ => false,
        }
    }

    /// Whether it is a call on one key that has yet to take effect.
    pub fn is_pending(&self) -> bool
        ensures { result ≡ is_pending self.now.phase }
    {
        match &self.phase {
            Phase::Obsolete { .. } => false,
            Phase::Retire { .. } => false,
            Phase::UnlockBelow { .. } => false,
            Phase::Unlock { .. } => false,
            Phase::Scan { .. } => false,
            Phase::Ended => false,
            // In the other phases it has changed nothing yet.
            _ => true,
        }
    }

    /// Whether it may change what stands at its key.
    pub fn may_write(&self) -> bool
        ensures { result ≡ may_write self.now.kind }
    {
        match &self.kind {
            Kind::Get => false,
            // An insertion, a removal, a compute or an exchange.
            _ => true,
        }
    }

    /// The reply that it will give, where it took effect and has locks to let go.
    #[inline(always)]
    pub fn reply(&self) -> Option<&Reply<P>>
        ensures { option_copied result ≡ reply_in self.now.phase }
    {
        match &self.phase {
            Phase::Obsolete { reply, .. } => Some(reply),
            Phase::Retire { reply, .. } => Some(reply),
            Phase::UnlockBelow { reply, .. } => Some(reply),
            Phase::Unlock { reply, .. } => Some(reply),
            // In the other phases it has yet to take effect, or has ended.
            _ => None,
        }
    }

    /// Whether it is a scan that has told its end.
    #[inline(always)]
    pub fn has_scanned(&self) -> bool
        ensures { result ≡ is_done self.now.phase }
    {
        match &self.phase {
            Phase::Scan { scan } => is_past(&scan.stage),
            // No other phase is a scan's.
            _ => false,
        }
    }
}

/// Whether a scan has told its end.
fn is_past<C: NodeName, P: Payload>(stage: &Stage<C, P>) -> bool
    ensures { result ≡ is_past stage.now }
{
    match stage {
        Stage::Over => true,
        // At every other stage it goes on.
        _ => false,
    }
}
