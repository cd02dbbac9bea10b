//! Guarding a document while nobody asks for anything: where its journal is another's or gone, or
//! the store is lost that keeps it, the server ends.
ghost use denote.Param.Send.{IsSend, IsSync};

use crate::fault::Fault;
use crate::holding::HeldJournal;
use crate::names::Names;
use crate::store::Link;
use crate::watch::Watch;
use canvas_doors::Door;
use std::sync::Wait;
use std::thread::{Scope, Threads};
use std::time::Clock;

/// What can be told that nothing more is kept.
pub trait Loses {
    /// From now on nobody is answered.
    fn lose(&self);
}

/// What a generation that is served stands on.
#[derive(Clone, Copy, Drop)]
pub struct Ground<'a> {
    pub number: u32,
    /// Its journal.
    pub held: &'a HeldJournal,
    /// The store that keeps it, if one does.
    pub link: Option<&'a Link>,
}

impl Ground<'_> {
    // Whether all of it stands.
    fn stands<H: Names + Wait + Clock>(&self, rt: &H) -> bool {
        if !self.held.leads_here(rt) {
            return false;
        }
        match self.link {
            Some(link) => link.stands(rt),
            None => true,
        }
    }

    /// Makes sure of all of it, before anybody is served.
    pub fn begin<H: Names + Wait + Clock>(&self, rt: &H) -> Result<(), Fault> {
        if let Some(link) = self.link {
            link.renew_lease(rt);
        }
        self.stands(rt);
        self.judge(rt)
    }

    /// Makes sure that the journal is still where it was.
    pub fn ensure_there<H: Names + Wait>(&self, rt: &H) -> Result<(), Fault> {
        self.held.leads_here(rt);
        self.judge(rt)
    }

    fn judge<H: Wait>(&self, rt: &H) -> Result<(), Fault> {
        match self.fault(rt) {
            Some(fault) => Err(fault),
            None => Ok(()),
        }
    }

    /// What is lost of it, if something was found to be.
    pub fn fault<H: Wait>(&self, rt: &H) -> Option<Fault> {
        if let Some(astray) = self.held.astray(rt) {
            return Some(Fault::Astray {
                number: self.number,
                astray,
            });
        }
        match self.link.and_then(|link| link.fault(rt)) {
            Some(fault) => Some(Fault::StoreLost(fault)),
            None => None,
        }
    }
}

/// Starts a thread that looks after what a generation stands on, until the watch is ended, and says
/// whether one could be had. Once something is lost nobody is answered any more, and the doors are
/// shut, which ends the server.
pub fn start_guard<'s, 'e: 's, G: Loses + Sync, H: Names + Threads + Wait + Clock + Sync>(
    rt: &'e H,
    scope: &'s Scope<'s, &'e ()>,
    watch: &'e Watch,
    gate: &'e G,
    ground: &'e Ground<'e>,
    doors: &'e [Door],
) -> bool {
    let started = scope.spawn(
        move ||
            requires { IsSync H.row × IsSync G.row }
        { keep_guard(rt, watch, gate, ground, doors) },
    );
    started.is_ok()
}

// Looks after it once a tick.
fn keep_guard<G: Loses, H: Names + Wait + Clock>(
    rt: &H,
    watch: &Watch,
    gate: &G,
    ground: &Ground<'_>,
    doors: &[Door],
) {
    for _ in rt.forever() {
        if !ground.stands(rt) {
            gate.lose();
            shut_all(doors);
            return;
        }
        if watch.wait_tick(rt) {
            return;
        }
    }
}

fn shut_all(doors: &[Door]) {
    for door in doors {
        // A door that is shut already needs none.
        let _ = door.shut();
    }
}
