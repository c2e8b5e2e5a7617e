//! Leaders by a table, or drawn by the host.

ghost use Rattle.std.specs.Prelude.{◌≡◌, ◌<◌, ◌^◌, true, false, length};

use simplex_types::types::{CertificateScheme, Elector, Participant, Round, Terms, View};

/// The table's members lead round-robin, one each term. Or the certificate that leads to a term names its leader in its
/// first four bytes, and the table is used if there is none.
///
/// A number that is no member's index counts as its remainder by the number of members.
#[derive(Drop)]
pub struct HostElector {
    leaders: Vec<u32>,
    count: u32,
    terms: Terms,
    early: bool,
    ghost has_leaders: { 0 < length leaders.items },
    ghost has_members: { 0 < count },
    ghost in_range: { count < 2 ^ 32 },
}

impl HostElector {
    ghost use Rattle.ffi_scheme.specs.HostLeaders.{host_members, host_terms, table_of, is_early, in_table, number_in};

    /// Returns the elector of this many members, who lead as the table says, whatever the certificates are.
    pub fn by_table(leaders: Vec<u32>, count: u32, terms: Terms) -> HostElector
        requires leaders { 0 < length leaders.items }
        requires members { 0 < count }
        ensures count { host_members result ≡ count }
        ensures terms { host_terms result ≡ terms }
        ensures table { table_of result ≡ leaders.items }
        ensures early { is_early result ≡ true }
    {
        HostElector {
            leaders,
            count,
            terms,
            early: true,
        }
    }

    /// Returns the elector of this many members, who lead as the certificates say, and without one as the table does.
    pub fn drawn(leaders: Vec<u32>, count: u32, terms: Terms) -> HostElector
        requires leaders { 0 < length leaders.items }
        requires members { 0 < count }
        ensures count { host_members result ≡ count }
        ensures terms { host_terms result ≡ terms }
        ensures table { table_of result ≡ leaders.items }
        ensures early { is_early result ≡ false }
    {
        HostElector {
            leaders,
            count,
            terms,
            early: false,
        }
    }

    /// The table's entry for a view.
    fn in_table(&self, view: View) -> u32
        ensures { result ≡ in_table self.now view }
    {
        let term = view.get().saturating_sub(1) / u64::from(self.terms.term_length.get().get());
        let place = term % self.leaders.len() as u64;
        self.leaders[place as usize]
    }

    /// The number in a certificate's first four bytes, big-endian; `None` if it has fewer.
    fn number_in(bytes: &[u8]) -> Option<u32>
        ensures { result ≡ number_in bytes.now }
    {
        let Some((front, _)) = bytes.split_first_chunk::<4>() else {
            return None;
        };
        Some(u32::from_be_bytes(*front))
    }
}

impl<S: CertificateScheme> Elector<S> for HostElector {
    ghost use Rattle.ffi_scheme.specs.HostLeaders.{host_members, host_terms, is_early, leader_after, elected_below, early_alike};

    ghost terms = { host_terms };

    ghost members = { host_members };

    ghost elects_early = { is_early };

    ghost elect = { λ e round seed. leader_after e round.view seed };

    fn terms(&self) -> Terms {
        self.terms
    }

    fn members(&self) -> usize {
        self.count as usize
    }

    fn elects_early(&self) -> bool {
        self.early
    }

    fn elect(&self, round: Round, certificate: Option<&S::Certificate>) -> Participant {
        if self.early {
            return Participant::new(self.in_table(round.view) % self.count);
        }
        let Some(certificate) = certificate else {
            return Participant::new(self.in_table(round.view) % self.count);
        };
        match HostElector::number_in(S::certificate_bytes(certificate)) {
            Some(number) => Participant::new(number % self.count),
            None => Participant::new(self.in_table(round.view) % self.count),
        }
    }

    ghost elected_is_member = { λ e round seed. elected_below e round.view seed };

    ghost early_needs_no_seed = { λ e round seed early. early_alike e round.view seed early };
}
