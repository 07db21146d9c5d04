//! The command `migrate`: from the bytes of a certificate, of either version, to its text of version 2 under a name.

ghost use Rattle.std.specs.Prelude.{◌≡◌, ◌≤◌, ℕ, List, [], ◌∷◌, length};
ghost use Rattle.wx_host.specs.Outside.{ChangesOnly, Contents, counted};
ghost use Rattle.cert_text.specs.declared.certificate.Certificate.{Certificate as ACertificate};
ghost use Rattle.wcet_front.specs.StoreUse.{log_of, state_of, use_between};
ghost use Rattle.wcet_front.specs.Files.{ReadsAndReplies, reads_of};
ghost use Rattle.wcet_front.specs.Inputs.{IsCertRefusal};
ghost use Rattle.wcet_front.specs.Reply.{IsNoFault};
ghost use Rattle.wcet_front.specs.Stages.{Answers, Gives, OnStarved};
ghost use Rattle.wcet_front.specs.Writing.{Works, WorksInPart, RepliesOf};
ghost use Rattle.wcet_cli.specs.Commands.{migrate_words};
ghost use Rattle.wcet_cli.specs.MigrateCommand.{IsMigration, MigrateDeed, MigrateDoes};

use crate::command::MigrateCommand;
use cert_text::{one_count, write_counted, written_tells};
use std::alloc::Global;
use wcet_front::{Reply, Stop, certificate_in, read_file, write_file};
use wx_base::{Store, Text};

/// What a certificate is written as.
#[derive(Drop)]
struct Migration {
    /// The text of version 2.
    text: Vec<u8>,
    /// The number of nodes.
    nodes: u64,
    /// The number of different vectors.
    vectors: u64,
}

/// The reply to `migrate`: the numbers of nodes and of different vectors of the certificate, once it is written.
pub fn migrate<S: Store>(
    alloc: Global,
    names: &MigrateCommand,
    store: &mut S,
) -> Result<Reply, Stop>
    ensures cause { let before = state_of (S.holds store.old) (log_of (S.read_faults store.old) (S.read_names store.old))
        (log_of (S.write_faults store.old) (S.write_names store.old)) in
        let after = state_of (S.holds store.new) (log_of (S.read_faults store.new) (S.read_names store.new))
        (log_of (S.write_faults store.new) (S.write_names store.new)) in
        let w = migrate_words names.now in
        Answers (Works (use_between before after) (w.source ∷ []) (MigrateDoes w)) result }
    ensures starved { let before = state_of (S.holds store.old) (log_of (S.read_faults store.old) (S.read_names store.old))
        (log_of (S.write_faults store.old) (S.write_names store.old)) in
        let after = state_of (S.holds store.new) (log_of (S.read_faults store.new) (S.read_names store.new))
        (log_of (S.write_faults store.new) (S.write_names store.new)) in
        let w = migrate_words names.now in
        OnStarved result (WorksInPart (use_between before after) (w.source ∷ []) (MigrateDoes w)) }
    ensures due { (contents : Contents) (due : _) → S.holds store.old ≡ Some contents
        → ReadsAndReplies (reads_of contents) (names.now.source.now ∷ []) (RepliesOf (MigrateDoes (migrate_words names.now))) due
        → IsNoFault due → Answers (λ said. IsNoFault said → said ≡ due) result }
    ensures others { ChangesOnly (S.holds store.old) (S.holds store.new) names.now.target.now }
    ensures asked { S.asked store.new ≡ counted (S.asked store.old) }
    ensures reliable { S.reliable store.old → S.reliable store.new }
    ensures sound { S.reliable store.old → Answers IsNoFault result }
{
    let source = read_file(alloc, names.source, store)?;
    let migration = migration_of(alloc, &source)?;
    write_file(alloc, names.target, migration.text.as_slice(), store)?;
    Ok(Reply::Migrated {
        nodes: migration.nodes,
        vectors: migration.vectors,
    })
}

/// What the certificate of a file is written as.
fn migration_of(alloc: Global, source: &Text) -> Result<Migration, Stop>
    requires { length source.now ≤ 16777216 }
    ensures cause { Gives (λ m. (c : ACertificate) × IsMigration source.now c m.text.items m.vectors
        × (m.nodes ≡ length c.families)) (IsCertRefusal source.now) result }
    ensures due { (target : List ℕ) (files : _) (said : _) → MigrateDeed target source.now files said
        → Gives (λ m. Reply.Migrated m.nodes m.vectors ≡ said) (λ reply. reply ≡ said) result }
{
    written_tells();
    one_count();
    let certificate = certificate_in(alloc, source)?;
    let mut text = Vec::new(alloc);
    let vectors = write_counted(&mut text, &certificate)?;
    Ok(Migration {
        text,
        nodes: certificate.families.len() as u64,
        vectors,
    })
}
