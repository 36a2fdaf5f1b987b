//! Laws of frames, each the contract of a function that does nothing.

ghost use Rattle.jvm_maps.specs.Laws.{FramesAreLawful, FormMeans};

/// The form in which a frame is written stands for the frame.
pub fn form_means()
    ensures { FormMeans }
{}

/// Frames are read exactly where they are spelled, each in the first form that fits.
pub fn frames_are_lawful()
    ensures { FramesAreLawful }
{}
