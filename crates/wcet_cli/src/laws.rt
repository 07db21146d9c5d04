//! Laws of the replies. Each function does nothing: its contract is the law.

ghost use Rattle.wcet_cli.specs.Call.{NeverNone, NoOtherIsDue, SomeReplyIsDue};
ghost use Rattle.wcet_cli.specs.Straight.{StraightRunsObey};

use cache_class::classes_are_one;
use cert_laws::{
    certificate_or_refusal_is_one, certificates_are_read_or_refused, certificates_have_texts,
};
use cert_rules::{first_broken_is_one, valid_breaks_none};
use cert_text::{one_count, what_is_read_is_writable, written_tells};
use flow_ctx::unfoldings_are_one;
use flow_graph::program_is_one;
use program_laws::{first_refusal_is_one, images_are_programs_or_refused};
use start_laws::{start_or_refusal_is_one, starts_are_read_or_refused};
use unfolding_laws::programs_are_unfolded_or_too_large;
use verdict_laws::{certificates_are_valid_or_broken, unfoldings_have_classes};

/// Whatever the words and whatever a store holds, one reply is due where nothing fails: it cannot be that none is, and no
/// two are. Where the words are not of the form of `run`, `migrate` or `check`, it is named.
pub fn one_reply_is_due()
    ensures never_none { NeverNone }
    ensures some { SomeReplyIsDue }
    ensures no_other { NoOtherIsDue }
{
    elf_image::one_answer_is_due();
    elf_image::images_are_loaded();
    ffx_facts::one_answer_is_due();
    machine_desc::one_answer_is_due();
    starts_are_read_or_refused();
    images_are_programs_or_refused();
    certificates_are_read_or_refused();
    certificates_have_texts();
    what_is_read_is_writable();
    written_tells();
    programs_are_unfolded_or_too_large();
    unfoldings_have_classes();
    certificates_are_valid_or_broken();
    start_or_refusal_is_one();
    program_is_one();
    first_refusal_is_one();
    certificate_or_refusal_is_one();
    one_count();
    unfoldings_are_one();
    classes_are_one();
    valid_breaks_none();
    first_broken_is_one();
}

/// Runs of a straight program obey rules that list no function, as those of no facts. So the bound of `flat` is one of
/// runs that no rule cuts off.
pub fn straight_runs_obey()
    ensures { StraightRunsObey }
{}
