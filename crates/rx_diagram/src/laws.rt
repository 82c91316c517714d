ghost use Rattle.rx_diagram.specs.Laws.{AskedAreDetermined};

/// States that the questions that matter are one number for those who count them, and does nothing.
pub fn asked_laws()
    ensures asked { AskedAreDetermined }
{}
