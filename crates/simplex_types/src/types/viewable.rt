//! Types with a view.

ghost use Rattle.std.specs.Prelude.{◌≡◌, ℕ};

use crate::types::messages::{
    Artifact, Certificate, Context, Finalization, Finalize, Notarization, Notarize, Nullification,
    Nullify, Proposal, Subject,
};
use crate::types::numbers::{Round, View};
use crate::types::scheme::{CertificateScheme, Digest};

/// A message, certificate, artifact or context of one view.
pub trait Viewable {
    /// The view's number.
    ghost view_of: { Self → ℕ };

    /// The view.
    fn view(&self) -> View
        ensures { result ≡ view_of self.now };
}

impl Viewable for Round {
    ghost view_of = { λ round. round.view };

    fn view(&self) -> View {
        self.view
    }
}

impl<D: Digest> Viewable for Proposal<D> {
    ghost view_of = { λ proposal. proposal.round.view };

    fn view(&self) -> View {
        self.round.view
    }
}

impl<D: Digest, P: Copy> Viewable for Context<D, P> {
    ghost view_of = { λ context. context.round.view };

    fn view(&self) -> View {
        self.round.view
    }
}

impl<D: Digest> Viewable for Subject<D> {
    ghost use Rattle.simplex_types.specs.MessageViews.{subject_view};

    ghost view_of = { subject_view };

    fn view(&self) -> View {
        match self {
            Subject::Notarize(proposal) => proposal.view(),
            Subject::Nullify(round) => round.view,
            Subject::Finalize(proposal) => proposal.view(),
        }
    }
}

impl<S: CertificateScheme, D: Digest> Viewable for Notarize<S, D> {
    ghost view_of = { λ vote. vote.proposal.round.view };

    fn view(&self) -> View {
        self.proposal.view()
    }
}

impl<S: CertificateScheme> Viewable for Nullify<S> {
    ghost view_of = { λ vote. vote.round.view };

    fn view(&self) -> View {
        self.round.view
    }
}

impl<S: CertificateScheme, D: Digest> Viewable for Finalize<S, D> {
    ghost view_of = { λ vote. vote.proposal.round.view };

    fn view(&self) -> View {
        self.proposal.view()
    }
}

impl<S: CertificateScheme, D: Digest> Viewable for Notarization<S, D> {
    ghost view_of = { λ notarization. notarization.proposal.round.view };

    fn view(&self) -> View {
        self.proposal.view()
    }
}

impl<S: CertificateScheme> Viewable for Nullification<S> {
    ghost view_of = { λ nullification. nullification.round.view };

    fn view(&self) -> View {
        self.round.view
    }
}

impl<S: CertificateScheme, D: Digest> Viewable for Finalization<S, D> {
    ghost view_of = { λ finalization. finalization.proposal.round.view };

    fn view(&self) -> View {
        self.proposal.view()
    }
}

impl<S: CertificateScheme, D: Digest> Viewable for Certificate<S, D> {
    ghost use Rattle.simplex_types.specs.MessageViews.{certificate_view};

    ghost view_of = { certificate_view };

    fn view(&self) -> View {
        match self {
            Certificate::Notarization(notarization) => notarization.view(),
            Certificate::Nullification(nullification) => nullification.view(),
            Certificate::Finalization(finalization) => finalization.view(),
        }
    }
}

impl<S: CertificateScheme, D: Digest> Viewable for Artifact<S, D> {
    ghost use Rattle.simplex_types.specs.MessageViews.{artifact_view};

    ghost view_of = { artifact_view };

    fn view(&self) -> View {
        match self {
            Artifact::Notarize(notarize) => notarize.view(),
            Artifact::Notarization(notarization) => notarization.view(),
            Artifact::Certification(round, _) => round.view,
            Artifact::Nullify(nullify) => nullify.view(),
            Artifact::Nullification(nullification) => nullification.view(),
            Artifact::Finalize(finalize) => finalize.view(),
            Artifact::Finalization(finalization) => finalization.view(),
        }
    }
}
