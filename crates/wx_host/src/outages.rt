ghost use Rattle.std.specs.Prelude.{◌≡◌, ◌↔◌, IsTrue};
ghost use Rattle.wx_host.specs.Outside.{counted};
ghost use Rattle.wx_host.specs.Outages.{FailsAt};

use std::marker::Model;

/// Which calls of a device in memory fail, and how many calls there were.
#[derive(Drop)]
pub(crate) struct Outages {
    failing: Vec<u64>,
    calls: u64,
}

impl Model for Outages {
    ghost use Rattle.wx_host.specs.Outages.{OutagePlan};

    ghost Value = { OutagePlan };

    ghost view = { λ s. record { failing = s.failing.items; calls = s.calls } };
}

impl Outages {
    /// Exactly the calls whose number, from 1, is listed are to fail; there was no call yet.
    pub(crate) fn new(failing: Vec<u64>) -> Outages
        ensures failing { result.failing ≡ failing.items }
        ensures calls { result.calls ≡ 0 }
    {
        Outages { failing, calls: 0 }
    }

    /// Counts a call, and says whether it is to fail. Takes time linear in the list.
    pub(crate) fn next_fails(&mut self) -> bool
        ensures fails { IsTrue result ↔ FailsAt self.old.failing (counted self.old.calls) }
        ensures failing { self.new.failing ≡ self.old.failing }
        ensures calls { self.new.calls ≡ counted self.old.calls }
    {
        self.calls = self.calls.saturating_add(1);
        self.calls != u64::MAX && self.failing.contains(&self.calls)
    }
}
