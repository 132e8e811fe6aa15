// A script, and the session that executes it.

ghost use Rattle.std.specs.Prelude.{◌≡◌, ◌<◌, ◌≤◌, ◌+◌, ◌^◌, map, length, IfOk, IfErr, IfSome, None};
ghost use Rattle.ct_lex.specs.Texts.{texts};
ghost use Rattle.ct_transaction.specs.State.{beginning};
ghost use Rattle.ct_session.specs.Standing.{state_in};
ghost use Rattle.ct_session.specs.Exporting.{IsFileOf};
ghost use Rattle.ct_serve.specs.TableFiles.{IsAfterAll, WhyNone};
ghost use Rattle.ct_serve.specs.Progress.{Progress, IsReady, HasAnswered, HasExecuted, HasRun, HasEnded};

use ct_arena::{Pass, Site};
use ct_keeper::Server;
use ct_lex::split;
use ct_outside::Gate;
use ct_session::{ExportError, Session};
use ct_statement::Workers;
use ct_transcript::{Reply, SessionLog};
use ct_word::{List, Memory, Text};
use std::alloc::Global;
use std::marker::Model;
use std::sync::Wait;
use std::thread::Threads;

/// A script, and the pass of the session that executes it.
#[derive(Drop)]
pub(crate) struct Client<N: Site> {
    // It is away only while the script is executed.
    pass: Option<Pass<N>>,
    script: Text,
    replies: Option<Vec<Reply>>,
}

impl<N: Site> Model for Client<N> {
    ghost use Rattle.std.specs.Prelude.{IsSome, option_map};
    ghost use Rattle.ct_serve.specs.Progress.{ClientView, seen_by};

    ghost Value = { ClientView };

    ghost view = { λ c. record { pass = seen_by c.pass; script = c.script; replies = option_map (λ r. r.items) c.replies } };

    ghost invariant = { λ c. IsSome c.pass };
}

/// The replies to statement texts, in their order. The gate is told of each text, numbered from 1.
///
/// # Errors
/// `Memory` where there is none for the list of replies.
fn answer<N: Site, R: Threads + Wait + Sync, G: Gate>(
    rt: &R,
    alloc: Global,
    server: &Server<N>,
    session: &mut Session<N>,
    statements: &[&str],
    gate: &G,
) -> Result<Vec<Reply>, Memory>
    requires few { session.old.pass.mine + length statements.now < 2 ^ 18 }
    ensures number { session.new.pass.session ≡ session.old.pass.session }
    ensures progress { IfOk result (λ replies. Progress N.log.cap (state_in session.old) (state_in session.new) session.old.pass session.new.pass (map (λ t. t.now) statements.now) replies.items) }
{
    let mut replies = Vec::with_capacity(alloc, statements.len())?;
    let by = session.pass().session();
    let _ = session.pass().words();
    for statement in statements {
        let number = replies.len() as u32 + 1;
        gate.before(rt, by, number);
        let reply = session.execute(rt, alloc, server, statement);
        gate.after(rt, by, number);
        // The session's commits are counted by its words.
        let _ = session.pass().words();
        replies.push_reserved(reply);
    }
    Ok(replies)
}

/// The replies to the statements of a script.
///
/// # Errors
/// `Memory` where there is none for the lists of statements and replies.
fn answer_script<N: Site, R: Threads + Wait + Sync, G: Gate>(
    rt: &R,
    alloc: Global,
    server: &Server<N>,
    session: &mut Session<N>,
    script: &str,
    gate: &G,
) -> Result<Vec<Reply>, Memory>
    requires few { session.old.pass.mine + length (texts script.now) < 2 ^ 18 }
    ensures number { session.new.pass.session ≡ session.old.pass.session }
    ensures progress { IfOk result (λ replies. Progress N.log.cap (state_in session.old) (state_in session.new) session.old.pass session.new.pass (texts script.now) replies.items) }
{
    let statements = split(alloc, script)?;
    answer(rt, alloc, server, session, statements.as_slice(), gate)
}

/// The replies to the statements of a script from the session's beginning on, and the table with this name after the last of
/// them, with the version. Either may be wanting.
fn answer_and_export<N: Site, R: Threads + Wait + Sync, G: Gate>(
    rt: &R,
    alloc: Global,
    server: &Server<N>,
    session: &mut Session<N>,
    script: &str,
    name: &str,
    gate: &G,
) -> (
    Result<Vec<Reply>, Memory>,
    Result<(u32, Vec<u8>), ExportError>,
)
    requires begins { state_in session.old ≡ beginning session.old.pass.session }
    requires few { session.old.pass.mine + length (texts script.now) < 2 ^ 18 }
    ensures number { session.new.pass.session ≡ session.old.pass.session }
    ensures answered { IfOk result.0 (λ replies. HasAnswered N.log.cap session.old.pass session.new.pass script.now replies.items) }
    ensures file { IfOk result.1 (λ r. IsAfterAll N.log.cap session.new.pass r.0 (λ h. IsFileOf session.new.pass.words h name.now r.1.items)) }
    ensures none { IfErr result.1 (WhyNone N.log.cap session.new.pass name.now) }
{
    let replies = answer_script(rt, alloc, server, session, script, gate);
    // The session's commits are counted by its words, before and after the export.
    let _ = session.pass().words();
    let file = session.export(rt, alloc, server, name);
    let _ = session.pass().words();
    (replies, file)
}

impl<N: Site> Client<N> {
    /// A client whose script was not executed.
    pub(crate) fn make(pass: Pass<N>, script: Text) -> Client<N>
        ensures { result ≡ record { pass = pass; script = script; replies = None } }
    {
        Client {
            pass: Some(pass),
            script,
            replies: None,
        }
    }

    /// Executes the script by a session of its own, with so many workers. The gate is told of each statement, numbered from 1.
    pub(crate) fn execute<R: Threads + Wait + Sync, G: Gate>(
        &mut self,
        rt: &R,
        alloc: Global,
        server: &Server<N>,
        gate: &G,
        workers: Workers,
    )
        requires { IsReady self.old }
        ensures { HasExecuted N.log.cap self.old self.new }
    {
        let Some(pass) = self.pass.take() else {
            unreachable!();
        };
        let mut session = Session::with_workers(pass, workers.count());
        let script = self.script.as_str();
        let replies = answer_script(rt, alloc, server, &mut session, script, gate);
        self.pass = Some(session.finish());
        self.replies = replies.ok();
    }

    /// Executes the script as `execute` does, and then exports the table with this name in lower case, at a version that has
    /// all commits of the session. With the file comes the version.
    ///
    /// # Errors
    /// As `export` of a session has them.
    pub(crate) fn execute_and_export<R: Threads + Wait + Sync, G: Gate>(
        &mut self,
        rt: &R,
        alloc: Global,
        server: &Server<N>,
        name: &str,
        gate: &G,
    ) -> Result<(u32, Vec<u8>), ExportError>
        requires { IsReady self.old }
        ensures executed { HasExecuted N.log.cap self.old self.new }
        ensures file { IfOk result (λ r. IsAfterAll N.log.cap self.new.pass r.0 (λ h. IsFileOf self.new.pass.words h name.now r.1.items)) }
        ensures none { IfErr result (WhyNone N.log.cap self.new.pass name.now) }
    {
        let Some(pass) = self.pass.take() else {
            unreachable!();
        };
        let mut session = Session::make(pass);
        let script = self.script.as_str();
        let (replies, file) = answer_and_export(
            rt,
            alloc,
            server,
            &mut session,
            script,
            name,
            gate,
        );
        self.pass = Some(session.finish());
        self.replies = replies.ok();
        file
    }

    /// The pass and what was said, or `None` where memory was wanting for the lists of statements and replies.
    pub(crate) fn finish(self) -> Option<(Pass<N>, SessionLog)>
        requires run { HasRun N.log.cap self }
        ensures ended { IfSome result (λ r. HasEnded N.log.cap r.0 r.1) }
        ensures pass { IfSome result (λ r. r.0 ≡ self.pass) }
        ensures number { IfSome result (λ r. r.0.session ≡ self.pass.session) }
        ensures script { IfSome result (λ r. r.1.script ≡ self.script) }
    {
        let Client {
            pass,
            script,
            replies,
        } = self;
        let Some(pass) = pass else { unreachable!() };
        // The commits of the session in its words are all that it made.
        let _ = pass.words();
        let replies = List::from_vec(replies?);
        Some((pass, SessionLog { script, replies }))
    }
}
