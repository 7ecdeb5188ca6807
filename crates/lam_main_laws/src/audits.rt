//! The laws that views and audits are complete, over the machine's runs.
//!
//! No release is lost to an observer that may see what it made. Every release and every refusal is in the audit with
//! its turn, and nothing else is. The laws stand over the definitions of runs (`lam_machine_terms`) and of what is kept
//! of one (`audit_log_notes`).

ghost use Rattle.lam_bytecode.specs.Codes.{CodeTree};
ghost use Rattle.lam_main_laws.specs.Whole.{ReleasesAreTold, AuditsAreWhole};

/// A release is a region that was entered as it was asked for, or a copy with the value that leads to it. So all that it
/// made is kept for whoever sees it, and its line in the audit names it.
pub fn releases_are_told()
    ensures { (code : CodeTree) → ReleasesAreTold code }
{}

/// Every release, and so every release past any observer, is noted with its turn and the capabilities that it took; so is
/// every refusal; and nothing else is noted.
pub fn audits_are_whole()
    ensures { AuditsAreWhole }
{}
