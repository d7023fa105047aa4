//! How long the bars of ranges and spans are.
use crate::outlook::PageSpan;
use crate::sheet::largest::Largest;
use numa_sheets::Scale;

/// The scale of ranges of these sizes, of which the largest have a bar each, and the others one for
/// all.
pub fn scale_of(sizes: &[u64], largest: Largest) -> Scale {
    let mut largest = largest;
    let mut most = 0u64;
    let mut least = u64::MAX;
    let mut rest = 0u64;
    for size in sizes {
        if largest.takes(*size) {
            most = most.max(*size);
            least = least.min(*size);
        } else {
            rest = rest.saturating_add(*size);
        }
    }
    Scale::between(least, most.max(rest))
}

/// The scale of spans, of which all may be drawn.
pub(crate) fn scale_of_spans(spans: &[PageSpan]) -> Scale {
    let mut most = 0u64;
    let mut least = u64::MAX;
    for span in spans {
        most = most.max(span.pages);
        least = least.min(span.pages);
    }
    Scale::between(least, most)
}
