//! The law of what images mean.

ghost use Rattle.site_means.specs.Laws.{MeaningsAgree};

/// The meaning depends on the chosen mark, on what its state slot holds, and on the journals that the walk enters.
pub fn meanings_agree()
    ensures { MeaningsAgree }
{}
