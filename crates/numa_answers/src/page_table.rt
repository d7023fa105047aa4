//! The page that shows an answer in a browser: the tables of its script.

/// The part of the script that makes tables, saves them, and takes keys. In a string of this kind
/// two backslashes stand for one.
pub(crate) static TABLES: &str = "
// How many rows a table has at first, and how many more come as one scrolls; and on paper.
const ROWS = 60;
const PRINTED = 2000;
// What fills each table for paper.
const fills = [];

const shown = (cell) => (typeof cell === 'object' ? cell.text : String(cell));
const key = (cell) => (typeof cell === 'object' ? cell.key : cell);
// What one reads in a cell, where thousands stand apart; records have plain numbers.
const seen = (cell) => (cell && cell.isCount ? grouped(cell.key) : shown(cell));

// Hands a text to the browser to be saved.
function save(name, kind, text) {
  const link = document.createElement('a');
  link.href = URL.createObjectURL(new Blob([text], { type: kind }));
  link.download = name;
  link.click();
  setTimeout(() => URL.revokeObjectURL(link.href), 1000);
}

// A cell of a record; an apostrophe keeps a spreadsheet from taking a text for a formula.
function field(text) {
  const safe = /^[=+@-]/.test(text) ? \"'\" + text : text;
  return /[\",\\n]/.test(safe) ? '\"' + safe.replaceAll('\"', '\"\"') + '\"' : safe;
}

const recordsOf = (heads, rows) => [heads, ...rows.map((row) => row.cells.map(shown))]
  .map((line) => line.map(field).join(',') + '\\n').join('');

// The first rows as a picture: each a line of text, and a bar by nodes in proportion to its pages.
function pictureOf(rows) {
  const space = 'http://www.w3.org/2000/svg';
  const drawn = rows.slice(0, 1000);
  const add = (name, parent, attributes, text) => {
    const made = document.createElementNS(space, name);
    for (const [it, value] of Object.entries(attributes)) made.setAttribute(it, value);
    if (text !== undefined) made.textContent = text;
    if (parent) parent.appendChild(made);
    return made;
  };
  const height = 40 * drawn.length + 20;
  const root = add('svg', null, { width: 920, height, viewBox: '0 0 920 ' + height,
    'font-family': 'monospace', 'font-size': 12 });
  add('rect', root, { width: 920, height, fill: '#ffffff' });
  const most = Math.max(1, ...drawn.map((row) => row.value.anon));
  drawn.forEach((row, place) => {
    const top = 40 * place + 10;
    const { start, end, anon, policy, nodes } = row.value;
    const names = namesOf(row.value, row.areas);
    const words = [hex(start) + '-' + hex(end), names, pagesText(anon), policy,
      nodesText(nodes, 'pages')];
    add('text', root, { x: 16, y: top + 11 }, words.filter((it) => it).join(' '));
    let done = 0;
    for (const { node, pages } of nodes) {
      const left = 16 + (888 * done) / most;
      const width = (888 * pages) / most;
      add('rect', root, { x: left, y: top + 16, width, height: 16, fill: fill(node),
        stroke: '#333333', 'stroke-width': 0.5 });
      if (width >= 12) {
        add('text', root, { x: left + width / 2, y: top + 27, 'font-size': 9,
          'text-anchor': 'middle', fill: ink(node) }, String(node));
      }
      done += pages;
    }
  });
  return new XMLSerializer().serializeToString(root);
}

// Writes words, of which those with an arrow don't break, as `N0->N1=4` would behind its hyphen.
// (Of very many words that isn't worth an element each.)
function putWords(parent, text) {
  const words = text.split(' ');
  words.forEach((word, place) => {
    if (place) parent.append(' ');
    if (word.includes('->') && words.length < 50) make('span', parent, word, 'whole');
    else parent.append(word);
  });
}

// Fills a cell.
function fillCell(line, it) {
  const isNumber = typeof it === 'number' || (it && it.isNumber);
  const kind = (shown(it).length < 60 ? 'one' : '') + (it && it.isName ? ' name' : '');
  const cell = make('td', line, undefined, isNumber ? 'number' : kind);
  putWords(cell, seen(it));
  if (it && it.bar !== undefined) cell.textContent = '';
  if (it && it.bar > 0) {
    const bar = make('span', cell, undefined, 'bar');
    // (As long in proportion where a phone has no room for the longest.)
    bar.style.width = 'min(' + it.bar + 'px, ' + it.bar / 10 + 'vw)';
    paint(bar, it.node);
  }
  if (it && it.mark) {
    cell.textContent = '';
    paint(make('span', cell, it.text, 'mark'), it.key);
  }
}

// The pages of a range by node: a column for each of few nodes, else all in one.
const countOf = (range, node) => (range.nodes.find((it) => it.node === node) || { pages: 0 }).pages;
const countCell = (count) => ({ key: count, text: String(count), isNumber: true, isCount: true });
const someCell = (pages) => (pages ? countCell(pages) : { key: 0, text: '', isNumber: true });
const nodeHeads = (nodes) => (nodes.length > FEW ? ['nodes'] : nodes.map((node) => 'N' + node));
const nodeCells = (range, nodes) => (nodes.length > FEW ? [nodesText(range.nodes, 'pages')]
  : nodes.map((node) => someCell(countOf(range, node))));

// The columns of a range's addresses.
const spanCells = (range) => [range.start, range.end].map((it) => ({ key: it, text: hex(it) }));

// A column of names, if areas have some.
const nameHeads = () => (areas.length ? ['name'] : []);
const nameCell = (name) => ({ key: name, text: name, isName: true });
const nameCells = (range) => (areas.length ? [nameCell(namesOf(range, ofProcess))] : []);
const rangeCells = (range) => [...spanCells(range), ...nameCells(range)];

// The choice of a node, all of whose rows have pages on it.
function pickOf(tools, nodes) {
  const pick = make('select', tools);
  pick.setAttribute('aria-label', 'node');
  make('option', pick, 'any node').value = '';
  for (const node of nodes) make('option', pick, 'node ' + node).value = node;
  return pick;
}

// A table that sorts by a click on a heading, and shows the rows that hold the filter's text; with
// `nodes` also those that have pages on a chosen node. More rows come as one scrolls.
function table(title, heads, rows, chosen, nodes) {
  const part = make('div', page, undefined, 'part');
  make('h2', part, title);
  const tools = make('div', part, undefined, 'tools');
  const filter = make('input', tools);
  filter.placeholder = 'filter';
  filter.setAttribute('aria-label', 'filter');
  const pick = nodes && pickOf(tools, nodes);
  const made = make('table', make('div', part, undefined, 'wide'));
  const top = make('tr', make('thead', made));
  const body = make('tbody', made);
  const rest = make('button', part, undefined, 'rest');
  let [by, falls, left, count] = [-1, false, [], 0];
  function more() {
    for (const row of left.slice(count, count + ROWS)) {
      const line = make('tr', body);
      if (chosen) line.tabIndex = 0;
      for (const it of row.cells) fillCell(line, it);
      line.onclick = () => {
        for (const other of body.children) other.classList.remove('chosen');
        line.classList.add('chosen');
        if (chosen) chosen(row.value);
      };
    }
    count = Math.min(left.length, count + ROWS);
    rest.textContent = left.length - count + ' more';
    rest.hidden = count === left.length;
  }
  function show() {
    const has = (row) => !pick || pick.value === ''
      || row.value.nodes.some((it) => it.node === Number(pick.value));
    left = rows.filter((row) => has(row)
      && (filter.value === ''
        || row.cells.some((it) => (shown(it) + ' ' + seen(it)).includes(filter.value))));
    if (by >= 0) {
      left.sort((a, b) => {
        const [x, y] = [key(a.cells[by]), key(b.cells[by])];
        return (x < y ? -1 : x > y ? 1 : 0) * (falls ? -1 : 1);
      });
    }
    body.textContent = '';
    count = 0;
    more();
  }
  heads.forEach((head, place) => {
    const made = make('th', top, head);
    made.tabIndex = 0;
    made.onclick = () => {
      falls = by === place ? !falls : false;
      by = place;
      show();
    };
  });
  const button = (name, act) => { make('button', tools, name).onclick = act; };
  button('Save as CSV', () => save(title + '.csv', 'text/csv', recordsOf(heads, left)));
  if (nodes) {
    button('Save as SVG', () => save(title + '.svg', 'image/svg+xml', pictureOf(left)));
    pick.onchange = show;
  }
  filter.oninput = show;
  rest.onclick = more;
  fills.push(() => {
    while (count < Math.min(left.length, PRINTED)) more();
  });
  show();
  new IntersectionObserver((seen) => {
    if (!rest.hidden && seen.some((it) => it.isIntersecting)) more();
  }).observe(rest);
}

// What accesses met by range, if that is told, the busiest first.
function busiestPart(ranges, chosen) {
  const rows = (ranges || []).map((it) => ({ value: it, cells: [...spanCells(it),
    countCell(it.accesses), nodesText(it.nodes, 'accesses'), countCell(it.unserved)] }));
  const heads = ['start', 'end', 'accesses', 'nodes', 'unserved'];
  if (ranges) table('Accesses by range', heads, rows, chosen);
}

// Keys: Enter is a click, arrows go on among rows and cells, and / begins a filter.
document.addEventListener('keydown', (pressed) => {
  const it = pressed.target;
  const isTyped = ['INPUT', 'SELECT', 'BUTTON', 'A'].includes(it.tagName);
  const to = { ArrowDown: 'TR', ArrowUp: 'TR', ArrowRight: 'DIV', ArrowLeft: 'DIV' }[pressed.key];
  if (pressed.key === '/' && it.tagName !== 'INPUT') document.querySelector('input').focus();
  else if (!isTyped && pressed.key === 'Enter' && it.onclick) it.click();
  else if (to !== undefined && to === it.tagName && it.tabIndex === 0) {
    const isOn = ['ArrowDown', 'ArrowRight'].includes(pressed.key);
    const next = isOn ? it.nextElementSibling : it.previousElementSibling;
    if (next) next.focus();
  } else return;
  pressed.preventDefault();
});
";
