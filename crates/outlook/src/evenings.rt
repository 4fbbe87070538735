// An evening that also keeps the levels it granted.
ghost use Rattle.std.specs.Prelude.{◌≡◌, ◌≤◌, [], reverse, length, IfOk, vec_len, vec_capacity, OnErr, OnOk};
ghost use Rattle.std.specs.Result.{result_err};
ghost use Rattle.contract.specs.Meaning.{Meaning, New, lowest};
ghost use Rattle.windows.specs.Forecasts.{forecast_energy, forecast_refusal, list_after};
ghost use Rattle.windows.specs.Planned.{Worst};
ghost use Rattle.evening.specs.declared.replies.Reply.TheVariants.{Ends};
ghost use Rattle.outlook.specs.declared.replies.Reply.TheVariants.{Said, Foresees};

use crate::replies::Reply;
use contract::Contract;
use std::alloc::{AllocError, Global};
use windows::{ListFault, forecast, verdict};

#[derive(Drop)]
pub struct Evening<C> {
    evening: evening::Evening<C>,
    // The levels granted, oldest first.
    levels: Vec<u32>,
    // As many as the evening has counted. That they kept the contract is no fact of the type: it may not have been new.
    ghost told: { evening.slots ≡ length levels.items },
}

impl<C: Contract> Evening<C> {
    ghost use Rattle.outlook.specs.Evenings.{JudgedReply, KeptBy, KeptReply, Replies, booked};

    #[tactic(auto, using(crate::proofs::Carried::kept_at_first))]
    pub fn new(heap: Global, contract: C) -> Evening<C>
        ensures made { (result.evening.contract ≡ contract) × (result.levels.items ≡ []) × (result.evening.energy ≡ 0) }
        ensures begun { New (C.meaning contract) → KeptBy (C.meaning contract) (booked C.meaning result) }
    {
        Evening {
            evening: evening::Evening::new(contract),
            levels: Vec::new(heap),
        }
    }

    // What comes of line number `count`. Want of memory leaves all as it was.
    #[tactic(auto, using(crate::proofs::Carried::granted_on))]
    pub fn answer(&mut self, count: u64, line: &[u8]) -> Result<Reply, AllocError>
        ensures reply { IfOk result (Replies (booked C.meaning self.old) (booked C.meaning self.new) count line.now) }
        ensures wanting { OnErr result (vec_capacity self.old.levels ≤ vec_len self.old.levels) }
        ensures unchanged { OnErr result (booked C.meaning self.new ≡ booked C.meaning self.old) }
        ensures kept { (first : Meaning) → KeptBy first (booked C.meaning self.old) → KeptBy first (booked C.meaning self.new) }
    {
        // Room first, so that a level that was granted is never lost.
        self.levels.reserve(1)?;
        let reply = self.evening.answer(count, line);
        if let evening::Reply::Granted(_, level) = reply {
            self.levels.push_reserved(level as u32);
        }
        Ok(Reply::Said(reply))
    }

    // Forecasts as many slots as `list` has places, and writes their levels there.
    pub fn foresee(&self, list: &mut [u32]) -> Result<Reply, ListFault>
        ensures answer { result_err result ≡ forecast_refusal (length list.old) (length list.old) }
        ensures reply { IfOk result (λ a. a ≡ Foresees (length list.old) (forecast_energy (C.meaning self.now.evening.contract) (length list.old))) }
        ensures after { list.new ≡ list_after (C.meaning self.now.evening.contract) (length list.old) list.old }
        ensures worst { OnOk result ((first : Meaning) → KeptBy first (booked C.meaning self.now) → Worst first (reverse self.now.levels.items) (length list.old) (forecast_energy (C.meaning self.now.evening.contract) (length list.old)) list.new) }
    {
        let slots = list.len() as u64;
        let energy = forecast(self.evening.contract(), slots, list)?;
        Ok(Reply::Foresees(slots, energy))
    }

    // How the evening ends: slots, energy, and the lowest level that may come next.
    pub fn end(&self) -> Reply
        ensures { result ≡ Said (Ends (length self.now.levels.items) self.now.evening.energy (lowest (C.meaning self.now.evening.contract))) }
    {
        Reply::Said(self.evening.end())
    }

    // Whether the levels granted kept the contract; they did, unless it was not new when the evening began.
    #[tactic(auto, using(crate::proofs::Carried::levels_lawful, windows::proofs::Margins::only_too_long))]
    pub fn judge(&self) -> Reply
        ensures judged { JudgedReply (C.meaning self.now.evening.contract) self.now.levels.items result }
        ensures kept { (first : Meaning) → KeptBy first (booked C.meaning self.now) → KeptReply self.now.levels.items result }
    {
        match verdict(self.evening.contract(), self.levels.as_slice()) {
            Ok(verdict) => Reply::Judges(verdict),
            Err(fault) => Reply::Unjudged(fault),
        }
    }
}
