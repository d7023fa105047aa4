//! The page that shows an answer in a browser: what stands before its data.
use numa_sheets::Written;

/// What a page begins with, up to its title.
static START: &str = "\
<!DOCTYPE html>
<html lang='en'>
<head>
<meta charset='utf-8'>
<meta name='viewport' content='width=device-width, initial-scale=1'>
<title>";

/// The part of the page between its title and its data.
static HEAD: &str = "\
body { font: 14px sans-serif; margin: 1em 2em; color: #111; background: #fff; }
h2 { margin: 1em 0 0.3em; font-size: 16px; }
section { margin-top: 2em; border-top: 3px solid #333; }
section h1 { font-size: 20px; }
#said a { margin-right: 1.5em; }
table { border-collapse: collapse; font-family: monospace; }
td, th { padding: 2px 6px; text-align: left; border-bottom: 1px solid #ddd; }
td.number { text-align: right; }
td.number, td.one, .whole { white-space: nowrap; }
td.name { min-width: 9em; white-space: normal; overflow-wrap: anywhere; }
th { cursor: pointer; background: #eee; position: sticky; top: 0; }
tbody tr { cursor: pointer; }
tbody tr:hover, tr.chosen { background: #eef4ff; }
.strip { display: flex; height: 34px; margin: 2px 0; border: 1px solid #333; max-width: 1200px; }
.cell { flex: 1; overflow: hidden; text-align: center; line-height: 34px; font: 11px/34px monospace;
  border-right: 1px solid #fff; cursor: pointer; min-width: 0; }
.differs { outline: 3px solid #000; outline-offset: -3px; }
.bar { display: inline-block; height: 12px; border: 1px solid #333; }
.mark { display: inline-block; min-width: 20px; text-align: center; border: 1px solid #333; }
.wide { overflow-x: auto; }
.tools > * { margin: 0 0.5em 0.3em 0; font: inherit; }
:focus-visible { outline: 3px solid #002aff; }
pre { background: #f6f6f6; padding: 8px; max-width: 1184px; white-space: pre-wrap;
  font-size: 12px; }
@media (max-width: 600px) {
  body { margin: 0.5em; font-size: 13px; }
  td, th { padding: 2px 5px; }
  pre { font-size: 11px; }
  .cell { border-right-width: 0; }
}
@media print {
  button:not(.rest), input, select { display: none; }
  .rest { border: 0; background: none; }
  th { position: static; }
  .wide { overflow: visible; }
  tr, .strip { break-inside: avoid; }
  table { font-size: 11px; }
  td, th { padding: 1px 6px; }
  td:not(.one, .number), td.name { white-space: normal; overflow-wrap: anywhere; }
  body, .bar, .mark, .cell { print-color-adjust: exact; }
}
</style>
</head>
<body>
<h1>numaplan</h1>
<p id='said'></p>
<div id='page'></div>
<script type='application/json' id='data'>
";

/// Begins a page with a title; what comes next are the rules of its styles.
pub fn begin_page(text: &mut Written, title: &str) {
    text.put(START.as_bytes());
    text.put(title.as_bytes());
    text.put(b"</title>\n<style>\n");
}

/// Writes the part of the page before its data.
pub(crate) fn put_head(text: &mut Written) {
    begin_page(text, "numaplan");
    text.put(HEAD.as_bytes());
}
