//! Laws over all lists of calls.

ghost use Rattle.simplex_resolver.specs.Answers.{AnswersAreOfTheReceived};
ghost use Rattle.simplex_resolver.specs.Repair.{OutstandingIsNeeded, RecordedAgainFetchesNothing};

/// For all calls in any order: once it was replayed, a resolver's outstanding fetches are exactly the views
/// that it needs, and a certificate opens no fetch if one of its kind and view came before, with the same
/// signers or with others.
pub fn repair()
    ensures wanted { OutstandingIsNeeded }
    ensures again { RecordedAgainFetchesNothing }
{}

/// For all calls in any order: what a resolver returns (`State::settled`, `State::uncertifiable`,
/// `State::produce`) follows from the certificates and verdicts that it received.
pub fn answers()
    ensures { AnswersAreOfTheReceived }
{}
