use crate::hands::Filling;
use crate::placing::{Laden, Placing};
use std::thread::Parker;
use us_crew::{Gate, Mail, Mailboxes};
use us_output::ChannelWithText;
use us_slots::NoMemory;

/// Where the workers of a crew find channels in phase `Fill`.
pub type FillMail<'a, G> = Mailboxes<Filling<'a>, G, ChannelWithText, ChannelWithText, NoMemory>;

/// Where they find them in phase `Build`.
pub type BuildMail<G> = Mailboxes<Placing, G, Laden, Laden, NoMemory>;

/// Where they find them in both phases of a round.
#[derive(Drop)]
pub struct RoundMail<'a, 'm, G: Gate> {
    /// Channels to fill.
    pub fills: &'m FillMail<'a, G>,
    /// Channels to build.
    pub builds: &'m BuildMail<G>,
}

impl<'a, 'm, G: Gate + Drop> Mail for RoundMail<'a, 'm, G> {
    fn serve(&self, worker: usize, owner: &Parker) {
        self.fills.serve(worker, owner);
        self.builds.serve(worker, owner);
    }
}
