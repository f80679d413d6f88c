//! Playing a script on one page.
ghost use Rattle.std.specs.Prelude.{◌≡◌, ◌++◌, IfOk, OnOk};
ghost use Rattle.step_script.specs.Meaning.Played.{step_text};
ghost use Rattle.step_script.specs.Meaning.ListScript.{ToldByLists};

use crate::played::Played;
use crate::script::{Line, Opening, Script};
use end_players::EndPlayers;
use printer::{push_head, push_image, push_lengths};
use ring_words::{Ring, Role, page_image};
use std::alloc::{AllocError, Global};
use vchan_core::Plain;
use vchan_io::Memory;

mod end_player;
mod end_players;
mod printer;
mod refusal;

/// The bytes of a page that `head` prints: its fields, up to the grant list.
const HEAD: usize = 24;

/// Plays the lines of a script in order on one page, which is opened as the first line says. Each
/// answer is printed when it comes. A line that an end can't carry out prints why, and makes no
/// event.
///
/// If each line after the opening is a whole call, `head` or `image`, then the lists of what each
/// end sent and got determine what is printed, except for `event` and for calls that an end can't
/// make.
///
/// # Errors
///
/// [`Memory`] if memory runs out; no other.
pub fn play(alloc: Global, script: &Script) -> Result<Played, Memory>
    ensures text { IfOk result (λ played. played ≡ step_text script.now) }
    ensures lists { IfOk result (λ played. ToldByLists script.now played) }
{
    let mut player = Player::open(alloc, script.opening)?;
    for line in &script.lines {
        player.play_line(line.line, line.payload.as_slice())?;
    }
    let text = player.end()?;
    Ok(Played::of(text))
}

/// A page with its two ends, and the text that has been printed so far.
#[derive(Drop)]
pub(crate) struct Player {
    page: Plain,
    ends: EndPlayers,
    text: Vec<u8>,
}

impl Player {
    ghost use Rattle.std.specs.Prelude.{◌≢◌, [], take, List};
    ghost use Rattle.vchan_protocol.specs.History.Core.{Core, opened};
    ghost use Rattle.vchan_core.specs.Page.StandsFor.{StandsFor, orders_of};
    ghost use Rattle.vchan_protocol.specs.declared.call.EndState.TheVariants.{Shut};
    ghost use Rattle.step_script.specs.Meaning.Output.{line_text, text_of};
    ghost use Rattle.step_script.specs.Meaning.Played.{line_done, plays, ring_line};
    ghost use Rattle.step_script.specs.Meaning.ListScript.{CanOpen};
    ghost use Rattle.step_script.specs.Parts.Players.{IsPlayedTo, Plays};
    ghost use Rattle.step_script.specs.Language.Script.{LineFits, head, image as image_line};
    ghost use Rattle.step_script.specs.Parts.ScriptLines.{line_with};

    /// Returns a page on which nothing has happened yet.
    pub(crate) fn open(alloc: Global, opening: Opening) -> Result<Player, Memory>
        requires { opening.state ≢ Shut }
        ensures opens { CanOpen opening }
        ensures at { IfOk result (λ player. IsPlayedTo (opened opening.orders opening.start opening.said opening.state) player) }
        ensures text { IfOk result (λ player. player.text.items ≡ []) }
    {
        let Opening {
            orders,
            said,
            state,
            start,
        } = opening;
        Ok(Player {
            page: Plain::open(alloc, orders, start, said, state)?,
            ends: EndPlayers::new(alloc),
            text: Vec::new(alloc),
        })
    }

    /// Carries out one line, with the bytes of its byte string, and prints its output.
    pub(crate) fn play_line(&mut self, line: Line, payload: &[u8]) -> Result<(), AllocError>
        requires known { (core : Core) × IsPlayedTo core self.old }
        requires fits { LineFits (orders_of self.old.page) (line_with line payload.now) }
        ensures plays { OnOk result (Plays (line_done (line_with line payload.now)) self.old self.new) }
    {
        match line {
            Line::Call { who, call } => self
                .ends
                .of_mut(who)
                .call(&mut self.page, who, call, payload, &mut self.text),
            Line::Begin { who, call } => self
                .ends
                .of_mut(who)
                .begin(&mut self.page, who, call, payload, &mut self.text),
            Line::Step { who, most } => self
                .ends
                .of_mut(who)
                .step(&mut self.page, who, most, &mut self.text),
            Line::Finish { who } => self
                .ends
                .of_mut(who)
                .finish(&mut self.page, who, &mut self.text),
            Line::Poke { who, word, value } => {
                self.page.poke(who, word, value);
                Ok(())
            }
            Line::Signal { who } => {
                self.page.signal(who);
                Ok(())
            }
            Line::Head => self.push_page_head(),
            Line::Image => self.push_page(),
        }
    }

    /// Prints the first bytes of the page.
    fn push_page_head(&mut self) -> Result<(), AllocError>
        ensures { OnOk result (Plays (line_done head) self.old self.new) }
    {
        let image = page_image(self.page.words());
        push_head(&mut self.text, &image[..HEAD])
    }

    /// Prints all bytes of the page.
    fn push_page(&mut self) -> Result<(), AllocError>
        ensures { OnOk result (Plays (line_done image_line) self.old self.new) }
    {
        let image = page_image(self.page.words());
        push_image(&mut self.text, &image)
    }

    /// Returns all that was printed, and last how many bytes went through each ring.
    pub(crate) fn end(mut self) -> Result<Vec<u8>, AllocError>
        ensures { IfOk result (λ text. (core : Core) → IsPlayedTo core self
            → text.items ≡ self.text.items ++ text_of (plays [] core)) }
    {
        self.push_ring(Ring::Left)?;
        self.push_ring(Ring::Right)?;
        Ok(self.text)
    }

    /// Prints how many bytes a ring's writer has sent and its reader has got.
    fn push_ring(&mut self, ring: Ring) -> Result<(), AllocError>
        ensures text { OnOk result ((core : Core) → StandsFor core self.old.page
            → self.new.text.items ≡ self.old.text.items ++ line_text (ring_line core ring)) }
        ensures page { self.new.page ≡ self.old.page }
    {
        let sent = self.page.sent_len(ring);
        let got = self.page.got_len(ring);
        push_lengths(&mut self.text, ring, sent, got)
    }
}
