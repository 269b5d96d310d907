// What is said of a token, message by message.
ghost use Rattle.std.specs.Prelude.{◌≡◌, true};
ghost use Rattle.std.specs.Iterator.{YieldsFirstBy, item_count};
ghost use Rattle.raw.specs.Answers.{begins};
ghost use Rattle.converter.specs.Codes.{said};
ghost use Rattle.converter.specs.Message.{message_code};

use crate::complaint::Complaint;
use crate::faults::Faults;
use crate::message::Message;
use crate::messages::err_to_msg;
use raw::RawSource;
use std::marker::Model;

// The messages that are still to come.
#[derive(Drop)]
pub(crate) struct Said<'a, S: RawSource> {
    complaint: Complaint,
    faults: Faults<'a, S>,
}

impl<'a, S: RawSource> Model for Said<'a, S> {
    ghost use Rattle.std.specs.Prelude.{ℕ, List};
    ghost use Rattle.converter.specs.Codes.{said};

    ghost Value = { List ℕ };

    ghost view = { λ s. said s.faults s.complaint };
}

impl<'a, S: RawSource> Said<'a, S> {
    // Of the token at the place.
    pub(crate) fn of(source: &'a S, place: usize, complaint: Complaint) -> Said<'a, S>
        requires { begins (S.RawSource.script source.now) place ≡ true }
        ensures { result ≡ said (S.RawSource.faults source.now place) complaint }
    {
        Said {
            complaint,
            faults: Faults::of(source, place),
        }
    }
}

impl<'a, S: RawSource> Iterator for Said<'a, S> {
    type Item = Message;

    ghost next_gives = { YieldsFirstBy message_code (λ codes. codes) };

    ghost remaining = { item_count (λ codes. codes) };

    // Inlined, as the faults' own: a literal may have a fault for each of its bytes.
    #[inline(always)]
    fn next(&mut self) -> Option<Message> {
        match self.complaint {
            Complaint::Silent | Complaint::Prefix => None,
            Complaint::Says(message) => {
                self.complaint = Complaint::Silent;
                Some(message)
            }
            Complaint::First(mode) => {
                self.complaint = Complaint::Silent;
                err_to_msg(self.faults.next()?, mode)
            }
            Complaint::Every(mode) => self.faults.find_map(|fault| err_to_msg(fault, mode)),
        }
    }
}
