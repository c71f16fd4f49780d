//! Pairs, no entry in two of them.

ghost use Rattle.std.specs.Prelude.{◌≡◌, ℕ, nat_lt, true, false, List, [], ◌∷◌, ◌++◌, IfErr, OnOk};
ghost use Rattle.cob_move_names.specs.PlainPairs.{pair, pairs, with_pairs_from};
ghost use Rattle.cob_move_names.specs.Numbers.{has};
ghost use Rattle.cob_move_names.specs.Pairing.{IsTwice, IsUnpaired};
ghost use Rattle.cob_move_names.specs.Pairs.{AreOnce, receives, sends};

use crate::number_set::NumberSet;
use crate::pair::Pair;
use crate::partners::Partners;
use crate::subordinate::Subordinate;
use cob_move_statements::MoveRule;
use std::alloc::Global;

/// Pairs in the order in which they were found, with the numbers of the entries that are in one of them.
#[derive(Drop)]
pub(crate) struct PairList<'b, 'a> {
    pub list: Vec<Pair<'b, 'a>>,
    senders: NumberSet,
    receivers: NumberSet,

    ghost once: { AreOnce (pairs list.items) },
    ghost sent: { (n : ℕ) → has senders n ≡ nat_lt 0 (sends n (pairs list.items)) },
    ghost received: { (n : ℕ) → has receivers n ≡ nat_lt 0 (receives n (pairs list.items)) },
}

impl<'b, 'a> PairList<'b, 'a> {
    /// No pairs yet.
    #[tactic(auto, using(crate::proofs::OnceLemmas::none_once))]
    pub(crate) fn new(alloc: Global) -> PairList<'b, 'a>
        ensures { pairs result.list.items ≡ [] }
    {
        PairList {
            list: Vec::new(alloc),
            senders: NumberSet::new(alloc),
            receivers: NumberSet::new(alloc),
        }
    }

    /// Whether an entry of a pair is in one of these.
    fn is_paired(&self, one: &Pair<'_, '_>) -> bool
        ensures yes { result ≡ true → AreOnce (pairs self.now.list.items ++ pair one.now ∷ []) → ⊥ }
        ensures no { result ≡ false → IsUnpaired (pair one.now) (pairs self.now.list.items) }
    {
        self.senders.contains(one.from.entry.number) || self.receivers.contains(one.to.entry.number)
    }

    /// Puts a pair behind the others.
    ///
    /// # Errors
    ///
    /// `Twice` where one of its entries is in a pair already; `Memory`.
    #[tactic(auto, using(crate::proofs::OnceLemmas::once_more, crate::proofs::NumberLemmas::sent_marked, crate::proofs::NumberLemmas::received_marked))]
    fn add(&mut self, one: Pair<'b, 'a>) -> Result<(), MoveRule>
        ensures added { OnOk result (pairs self.new.list.items
            ≡ pairs self.old.list.items ++ pair one.entry ∷ []) }
        ensures fault { IfErr result (λ r. IsTwice r
            (pairs self.old.list.items ++ pair one.entry ∷ [])) }
    {
        if self.is_paired(&one) {
            return Err(MoveRule::Twice);
        }
        self.senders.make_room(one.from.entry.number)?;
        self.receivers.make_room(one.to.entry.number)?;
        self.list.push(one)?;
        self.senders.insert(one.from.entry.number);
        self.receivers.insert(one.to.entry.number);
        Ok(())
    }

    /// Puts the pair of a sending entry behind the others, if it has one.
    ///
    /// # Errors
    ///
    /// `Twice` where an entry is in two pairs; `Memory`.
    pub(crate) fn add_pair_of(
        &mut self,
        from: &'b Subordinate<'a>,
        partners: &'b Partners<'a>,
    ) -> Result<(), MoveRule>
        ensures added { OnOk result (pairs self.new.list.items
            ≡ with_pairs_from partners.now.entries.items from.now self.old.list.items) }
        ensures fault { IfErr result (λ r. IsTwice r
            (with_pairs_from partners.now.entries.items from.now self.old.list.items)) }
    {
        match partners.partner_of(from)? {
            Some(to) => self.add(Pair { from, to }),
            None => Ok(()),
        }
    }
}
